//! The lines of raw bytes, and under those of answers all that the servers said.

ghost use Rattle.std.specs.Prelude.{◌≡◌, IfOk, OnOk, if◌then◌else◌, string_bytes};
ghost use Rattle.ua_walk.specs.Told.{is_whole};
ghost use Rattle.ua_walk.specs.Walk.{story};
ghost use Rattle.ua_trace.specs.Woven.{Woven};

use crate::answer::add_under;
use std::alloc::Global;
use ua_chunk::Content;
use ua_print::{add_bad, add_frame, add_long, add_parts, add_rest};
use ua_value::NoMemory;
use ua_walk::{Teller, status_of, walk_whole};

/// The usual lines of all that was told, and under those of messages that are answers to FindServers or GetEndpoints those
/// that `ask --all` prints of them.
#[derive(Drop)]
struct WholeLines {
    alloc: Global,
    text: String,
}

impl Teller for WholeLines {
    ghost heard = { λ l told. Woven told (string_bytes l.text) };

    #[tactic(auto, using(crate::proofs::Weave::frame_put))]
    fn tell_frame(
        &mut self,
        offset: usize,
        size: usize,
        content: &Content,
    ) -> Result<(), NoMemory> {
        add_frame(&mut self.text, offset, size, content)
    }

    fn tell_message(&mut self, request_id: u32, parts: &[&[u8]]) -> Result<(), NoMemory> {
        add_parts(self.alloc, &mut self.text, request_id, parts)?;
        add_under(self.alloc, &mut self.text, parts)
    }

    #[tactic(auto, using(crate::proofs::Weave::frame_put))]
    fn tell_long(&mut self, offset: usize) -> Result<(), NoMemory> {
        add_long(&mut self.text, offset)
    }

    #[tactic(auto, using(crate::proofs::Weave::frame_put))]
    fn tell_bad(&mut self, offset: usize, status: u32) -> Result<(), NoMemory> {
        add_bad(&mut self.text, offset, status)
    }

    #[tactic(auto, using(crate::proofs::Weave::frame_put))]
    fn tell_rest(&mut self, offset: usize, left: usize) -> Result<(), NoMemory> {
        add_rest(&mut self.text, offset, left)
    }
}

/// The lines of `ua_print::lines_of`, and under the line of each whole message that is an answer to FindServers or
/// GetEndpoints those that `ask --all` prints of it, each behind four blanks; and the same exit status.
///
/// # Errors
///
/// `NoMemory` where a growth was refused.
pub fn whole_lines_of(alloc: Global, bytes: &[u8]) -> Result<(String, u8), NoMemory>
    ensures text { IfOk result (λ x. Woven (story bytes.now) (string_bytes x.0)) }
    ensures status { IfOk result (λ x. x.1 ≡ if is_whole (story bytes.now) then 0 else 1) }
{
    let mut lines = WholeLines {
        alloc,
        text: String::new(alloc),
    };
    match walk_whole(alloc, bytes, &mut lines) {
        Ok(is_whole) => Ok((lines.text, status_of(is_whole))),
        Err(e) => Err(e),
    }
}
