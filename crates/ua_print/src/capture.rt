//! The lines of a capture: the raw bytes of one direction, frame by frame.

ghost use Rattle.std.specs.Prelude.{◌≡◌, ◌∷◌, [], IfOk, OnOk, if◌then◌else◌, string_bytes};
ghost use Rattle.ua_print.specs.Capture.{lines, shown};
ghost use Rattle.ua_walk.specs.Parts.{joined};
ghost use Rattle.ua_walk.specs.Told.{frame_told, message_told, long_told, bad_told, rest_told, Hears};

use crate::frame_line::{add_bad, add_frame, add_long, add_rest};
use crate::parts::add_parts;
use std::alloc::Global;
use ua_chunk::Content;
use ua_value::NoMemory;
use ua_walk::{Teller, status_of, walk_whole};

/// The lines of all that was told.
#[derive(Drop)]
struct Lines {
    alloc: Global,
    text: String,
}

impl Teller for Lines {
    ghost heard = { λ l told. string_bytes l.text ≡ lines told };

    #[tactic(auto, using(crate::proofs::Captures::one_more))]
    fn tell_frame(
        &mut self,
        offset: usize,
        size: usize,
        content: &Content,
    ) -> Result<(), NoMemory> {
        add_frame(&mut self.text, offset, size, content)
    }

    #[inline(always)]
    #[tactic(auto, using(crate::proofs::Captures::one_more))]
    fn tell_message(&mut self, request_id: u32, parts: &[&[u8]]) -> Result<(), NoMemory> {
        add_parts(self.alloc, &mut self.text, request_id, parts)
    }

    #[tactic(auto, using(crate::proofs::Captures::one_more))]
    fn tell_long(&mut self, offset: usize) -> Result<(), NoMemory> {
        add_long(&mut self.text, offset)
    }

    #[tactic(auto, using(crate::proofs::Captures::one_more))]
    fn tell_bad(&mut self, offset: usize, status: u32) -> Result<(), NoMemory> {
        add_bad(&mut self.text, offset, status)
    }

    #[tactic(auto, using(crate::proofs::Captures::one_more))]
    fn tell_rest(&mut self, offset: usize, left: usize) -> Result<(), NoMemory> {
        add_rest(&mut self.text, offset, left)
    }
}

/// The lines of the frames that the bytes are, each with its offset from 0, and the exit status: 0 where the last frame
/// ends with the bytes, and 1 where a frame is refused or cut, or a message too long, which the last line says.
pub fn lines_of(alloc: Global, bytes: &[u8]) -> Result<(String, u8), NoMemory>
    ensures text { IfOk result (λ x. string_bytes x.0 ≡ (shown bytes.now).text) }
    ensures status { IfOk result (λ x. x.1 ≡ (shown bytes.now).status) }
{
    let mut lines = Lines {
        alloc,
        text: String::new(alloc),
    };
    match walk_whole(alloc, bytes, &mut lines) {
        Ok(is_whole) => Ok((lines.text, status_of(is_whole))),
        Err(e) => Err(e),
    }
}
