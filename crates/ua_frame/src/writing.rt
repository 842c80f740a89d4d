//! How a whole frame is written.

ghost use Rattle.std.specs.Prelude.{◌≡◌, ◌+◌, ◌<◌, ◌^◌, ◌++◌, length, take, is_ok, if◌then◌else◌, OnOk, OnErr};
ghost use Rattle.ua_frame.specs.Layout.{frame_bytes};

use crate::frame::HEADER;
use crate::kind::Kind;
use ua_value::plumbing::Parts;
use ua_value::{NoMemory, Sink};

/// The flag of every frame that is no message's chunk.
const FINAL: u8 = b'F';

/// Appends a frame, or where memory runs out a beginning of it.
fn put_frame<P: Parts>(kind: Kind, len: u32, fields: &P, out: &mut Vec<u8>) -> Result<(), NoMemory>
    requires room { 8 + len < 2 ^ 32 }
    requires len { length (P.spelling fields.now) ≡ len }
    ensures ok { OnOk result (out.new.items ≡ out.old.items ++ frame_bytes (record { kind = kind; flag = 70; fields = P.spelling fields.now })) }
    ensures err { OnErr result (take (length out.old.items) out.new.items ≡ out.old.items) }
{
    out.put(kind.name())?;
    out.put(&[FINAL])?;
    out.put(&(HEADER + len).to_le_bytes())?;
    fields.emit_parts(out)
}

/// Appends a frame of these fields, `len` bytes of them, or leaves `out` unchanged.
pub(crate) fn write_frame<P: Parts>(
    kind: Kind,
    len: u32,
    fields: &P,
    out: &mut Vec<u8>,
) -> Result<(), NoMemory>
    requires room { 8 + len < 2 ^ 32 }
    requires len { length (P.spelling fields.now) ≡ len }
    ensures { out.new.items ≡ (if is_ok result then out.old.items ++ frame_bytes (record { kind = kind; flag = 70; fields = P.spelling fields.now }) else out.old.items) }
{
    let start = out.len();
    match put_frame(kind, len, fields, out) {
        Ok(()) => Ok(()),
        Err(e) => {
            out.truncate(start);
            Err(e)
        }
    }
}
