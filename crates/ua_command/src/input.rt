//! Reads an input to its end.

ghost use Rattle.std.specs.Prelude.{◌≡◌, IfOk, IfSome};
ghost use Rattle.ua_command.specs.Input.{ReadsOnto};

use std::alloc::Global;
use std::io::Read;

/// The most reads of one input.
pub const MOST_READS: u32 = 1_048_576;

/// The most bytes of one read.
pub const PIECE: usize = 4096;

/// Why an input was not read to its end.
#[derive(Clone, Copy, Debug, PartialEq, Eq)]
pub enum InputFault {
    /// A read failed, or the end did not come within `MOST_READS` reads.
    Failed,
    /// A growth was refused.
    NoMemory,
}

/// Appends what one read gives, and says whether that is anything: at its end an input gives nothing.
///
/// `Failed` where the read fails, `NoMemory` where the bytes find no room.
pub fn read_onto<I: Read>(
    input: &mut I,
    piece: &mut [u8; PIECE],
    all: &mut Vec<u8>,
) -> Result<bool, InputFault>
    ensures { IfOk result (ReadsOnto (I.remaining input.old) (I.remaining input.new) all.old.items all.new.items) }
{
    let Ok(n) = input.read(piece) else {
        return Err(InputFault::Failed);
    };
    if all.extend_from_slice(&piece[..n]).is_err() {
        return Err(InputFault::NoMemory);
    }
    Ok(n != 0)
}

/// The whole of an input, by at most `MOST_READS` reads.
///
/// `Failed` where a read fails or the end has not come by then, `NoMemory` where the bytes find
/// no room. After an error the input stands behind what was read.
pub fn read_whole<I: Read>(alloc: Global, input: &mut I) -> Result<Vec<u8>, InputFault>
    ensures { IfOk result (λ v. IfSome (I.remaining input.old) (λ bytes. v.items ≡ bytes)) }
{
    let mut all = Vec::new(alloc);
    let mut piece = [0u8; PIECE];
    'reads: for _ in 0..MOST_READS {
        if !read_onto(input, &mut piece, &mut all)? {
            return Ok(all);
        }
    }
    Err(InputFault::Failed)
}
