//! The frame at the front of what comes, as long as it is not whole.

ghost use Rattle.std.specs.Prelude.{◌≡◌, ◌≤◌, ◌++◌, ℕ, List, [], length, nat_lt};
ghost use Rattle.ua_frame.specs.Streams.{size_of};
ghost use Rattle.ua_conn.specs.server.Feeding.{BeginsNoFrame};
ghost use Rattle.ua_link.specs.Fronts.{IsFront, wanted};

use ua_frame::HEADER;

/// What is known of a frame that is not whole.
#[derive(Clone, Copy)]
pub(crate) struct Front {
    /// The bytes of its header, of which so many came.
    header: [u8; HEADER as usize],
    got: usize,
    /// Once the header is there, how many bytes are to come behind those that came.
    missing: usize,
}

/// The size of the frame with this header.
#[tactic(auto, unfolding(ua_frame::specs::Streams::size_of))]
fn size_in(header: &[u8; HEADER as usize]) -> usize
    ensures { result ≡ size_of header.now }
{
    u32::from_le_bytes([header[4], header[5], header[6], header[7]]) as usize
}

impl Front {
    /// Of a frame of which no byte came.
    pub(crate) fn new() -> Front
        ensures { IsFront result.header result.got result.missing [] }
    {
        Front {
            header: [0; HEADER as usize],
            got: 0,
            missing: 0,
        }
    }

    /// Whether some byte of it came.
    pub(crate) fn is_begun(&self) -> bool
        ensures { (rest : List ℕ) → IsFront self.now.header self.now.got self.now.missing rest → result ≡ nat_lt 0 (length rest) }
    {
        self.got > 0
    }

    /// How many bytes come up to the end of its header, or else of the frame; one at least.
    pub(crate) fn wanted(&self) -> usize
        ensures { result ≡ wanted self.now.got self.now.missing }
    {
        if self.got < HEADER as usize {
            HEADER as usize - self.got
        } else {
            self.missing.max(1)
        }
    }

    /// Notes that these bytes of it came, of those that `wanted` says, and that it is not whole yet.
    pub(crate) fn add(&mut self, piece: &[u8])
        requires { length piece.now ≤ wanted self.old.got self.old.missing }
        ensures { (rest : List ℕ) → IsFront self.old.header self.old.got self.old.missing rest → BeginsNoFrame (rest ++ piece.now) →
            IsFront self.new.header self.new.got self.new.missing (rest ++ piece.now) }
    {
        if self.got < HEADER as usize {
            let end = self.got + piece.len();
            self.header[self.got..end].copy_from_slice(piece);
            self.got = end;
            self.missing = size_in(&self.header).saturating_sub(end);
        } else {
            self.missing = self.missing.saturating_sub(piece.len());
        }
    }
}
