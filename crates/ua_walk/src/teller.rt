//! Who is told what the bytes of one direction are.

ghost use Rattle.std.specs.Prelude.{ℕ, List, [], ◌∷◌, OnOk};
ghost use Rattle.ua_walk.specs.Parts.{joined};
ghost use Rattle.ua_walk.specs.Told.{Told, frame_told, message_told, long_told, bad_told, rest_told, Hears};

use ua_chunk::Content;
use ua_value::NoMemory;

/// Is told what the bytes of one direction are, in their order. Each call fails with `NoMemory` alone, where a growth was
/// refused.
pub trait Teller {
    // this is all that it was told
    ghost heard: { Self → List Told → Type 0 };

    /// A frame of so many bytes begins at the offset.
    fn tell_frame(&mut self, offset: usize, size: usize, content: &Content) -> Result<(), NoMemory>
        ensures { OnOk result (Hears heard (frame_told offset size content.now ∷ []) self.old self.new) };

    /// A message is whole with the frame before: its body is these parts joined.
    fn tell_message(&mut self, request_id: u32, parts: &[&[u8]]) -> Result<(), NoMemory>
        ensures { OnOk result (Hears heard (message_told request_id (joined parts.now) ∷ []) self.old self.new) };

    /// The message of which the frame at this offset is a part is longer than [`MOST_MESSAGE`](crate::MOST_MESSAGE), and
    /// nothing is told behind it.
    fn tell_long(&mut self, offset: usize) -> Result<(), NoMemory>
        ensures { OnOk result (Hears heard (long_told offset ∷ []) self.old self.new) };

    /// A frame, or what should be one, is refused with this status, and nothing is told behind it.
    fn tell_bad(&mut self, offset: usize, status: u32) -> Result<(), NoMemory>
        ensures { OnOk result (Hears heard (bad_told offset status ∷ []) self.old self.new) };

    /// The last bytes, so many, are less than a frame.
    fn tell_rest(&mut self, offset: usize, left: usize) -> Result<(), NoMemory>
        ensures { OnOk result (Hears heard (rest_told offset left ∷ []) self.old self.new) };
}
