//! What an input of captures begins with.

ghost use Rattle.std.specs.Prelude.{IfOk};
ghost use Rattle.ua_command.specs.Begun.{IsBegun};

use crate::input::{InputFault, MOST_READS, PIECE, read_onto};
use std::alloc::Global;
use std::io::Read;
use ua_trace::is_capture;

/// What an input begins with.
#[derive(Drop)]
pub enum Begun {
    /// Raw bytes, which are all of it.
    Raw(Vec<u8>),
    /// A file of packets, of which these are the first bytes.
    Packets(Vec<u8>),
}

/// The whole of an input of raw bytes, or the first bytes of one of packets, by at most `MOST_READS` reads.
///
/// `Failed` where a read fails or the end has not come by then, `NoMemory` where the bytes find no room. After an error
/// the input stands behind what was read.
pub fn begin<I: Read>(alloc: Global, input: &mut I) -> Result<Begun, InputFault>
    ensures { IfOk result (IsBegun (I.remaining input.old) (I.remaining input.new)) }
{
    let mut all = Vec::new(alloc);
    let mut piece = [0u8; PIECE];
    'reads: for _ in 0..MOST_READS {
        if !read_onto(input, &mut piece, &mut all)? {
            return Ok(Begun::Raw(all));
        }
        if is_capture(all.as_slice()) {
            return Ok(Begun::Packets(all));
        }
    }
    Err(InputFault::Failed)
}
