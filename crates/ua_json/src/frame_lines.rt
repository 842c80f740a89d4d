//! The lines of what the bytes of one direction are.

ghost use Rattle.std.specs.Prelude.{◌≡◌, length, IfOk, if◌then◌else◌, string_bytes};
ghost use Rattle.ua_json.specs.Lines.{AreLines};
ghost use Rattle.ua_walk.specs.Told.{is_whole};
ghost use Rattle.ua_walk.specs.Walk.{story};

use crate::frame::{add_bad, add_frame, add_message, add_rest};
use crate::origin::Origin;
use crate::stream::add_note;
use std::alloc::Global;
use ua_chunk::Content;
use ua_value::NoMemory;
use ua_walk::{Teller, status_of, walk_whole};

/// Lines of JSON: one for all that is told, in front of whose fields stands where it comes from, if that is said.
#[derive(Drop)]
pub struct FrameLines {
    /// What gives memory.
    pub alloc: Global,
    /// Where all that is told from now on comes from.
    pub origin: Option<Origin>,
    /// The lines.
    pub text: String,
}

impl Teller for FrameLines {
    ghost heard = { λ l told. AreLines (length told) (string_bytes l.text) };

    #[tactic(auto, using(crate::proofs::Appending::one_told))]
    fn tell_frame(
        &mut self,
        offset: usize,
        size: usize,
        content: &Content,
    ) -> Result<(), NoMemory> {
        add_frame(
            self.alloc,
            &mut self.text,
            self.origin,
            offset,
            size,
            content,
        )
    }

    #[tactic(auto, using(crate::proofs::Appending::one_told))]
    fn tell_message(&mut self, request_id: u32, parts: &[&[u8]]) -> Result<(), NoMemory> {
        add_message(self.alloc, &mut self.text, self.origin, request_id, parts)
    }

    #[tactic(auto, using(crate::proofs::Appending::one_told))]
    fn tell_long(&mut self, offset: usize) -> Result<(), NoMemory> {
        add_note(
            self.alloc,
            &mut self.text,
            self.origin,
            offset,
            "message-too-long",
        )
    }

    #[tactic(auto, using(crate::proofs::Appending::one_told))]
    fn tell_bad(&mut self, offset: usize, status: u32) -> Result<(), NoMemory> {
        add_bad(self.alloc, &mut self.text, self.origin, offset, status)
    }

    #[tactic(auto, using(crate::proofs::Appending::one_told))]
    fn tell_rest(&mut self, offset: usize, left: usize) -> Result<(), NoMemory> {
        add_rest(self.alloc, &mut self.text, self.origin, offset, left)
    }
}

/// The lines of the frames that the bytes are, each with its offset from 0, and of the messages that are whole with them;
/// and the exit status: 0 where the last frame ends with the bytes, and 1 where a frame is refused or cut, or a message too
/// long, which the last line says. To JSON it is what `ua_print::lines_of` is to lines (OPC 10000-6, 6.7.2 and 7.1.2).
///
/// # Errors
///
/// `NoMemory` where a growth was refused.
pub fn frames_json(alloc: Global, bytes: &[u8]) -> Result<(String, u8), NoMemory>
    ensures lines { IfOk result (λ x. AreLines (length (story bytes.now)) (string_bytes x.0)) }
    ensures status { IfOk result (λ x. x.1 ≡ if is_whole (story bytes.now) then 0 else 1) }
{
    let mut lines = FrameLines {
        alloc,
        origin: None,
        text: String::new(alloc),
    };
    match walk_whole(alloc, bytes, &mut lines) {
        Ok(is_whole) => Ok((lines.text, status_of(is_whole))),
        Err(e) => Err(e),
    }
}
