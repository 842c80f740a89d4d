//! The frames of a piece, one after another.

ghost use Rattle.std.specs.Prelude.{◌≡◌, ◌<◌, ◌≤◌, ◌++◌, ◌^◌, length, None, IfOk, OnOk, OnErr};
ghost use Rattle.ua_frame.specs.Hello.{error_frame};
ghost use Rattle.ua_conn.specs.server.Feeding.{Steps, Hears, HearsPart};

use crate::outcome::End;
use crate::server::connection::{Connection, Taken};
use ua_frame::{ErrorFrame, FrameBuf};
use ua_service::Request;
use ua_value::{NoMemory, UaString};

/// What the front of some bytes did.
#[derive(Clone, Copy)]
pub(crate) enum Step {
    /// Nothing: no whole frame is there, and no header that is refused.
    Waits,
    /// The frame there was taken, and more may come.
    GoesOn,
    /// A frame closed the connection.
    Closed,
    /// A frame, or the header of one, is refused with this status, and nothing was said yet.
    Refused(u32),
}

/// Takes the frame at the front of the buffer, where a whole one is there. It stays there.
fn take_front(
    connection: &mut Connection,
    now: u64,
    buffer: &FrameBuf,
    asked: &mut Vec<Request>,
    out: &mut Vec<u8>,
) -> Result<Step, NoMemory>
    requires moment { connection.old.moment ≤ now }
    requires stamp { now < 2 ^ 63 }
    requires room { connection.old.site.settings.limits.receive ≤ buffer.now.capacity }
    ensures step { IfOk result (λ step. Steps connection.old connection.new now buffer.now.bytes
        (record { bytes = out.old.items; asked = asked.old.items }) (record { bytes = out.new.items; asked = asked.new.items }) step) }
    ensures moment { OnOk result (connection.new.moment ≤ now) }
    ensures part { OnErr result (out.new.items ≡ out.old.items) }
    ensures site { connection.new.site ≡ connection.old.site }

    // A full buffer has a whole frame, or a header that is refused.
    ensures room { IfOk result (λ step. step ≡ Step.Waits → length buffer.now.bytes < buffer.now.capacity) }
{
    let frame = match buffer.first(connection.greatest_frame()) {
        Ok(Some(frame)) => frame,
        Ok(None) => return Ok(Step::Waits),
        Err(status) => return Ok(Step::Refused(status)),
    };
    match connection.take(&frame, now, asked, out)? {
        Taken::GoesOn => Ok(Step::GoesOn),
        Taken::Closed => Ok(Step::Closed),
        Taken::Refused(status) => Ok(Step::Refused(status)),
    }
}

/// Says that the connection failed. OPC 10000-6, 7.1.2.5.
fn refuse(status: u32, out: &mut Vec<u8>) -> Result<(), NoMemory>
    ensures ok { OnOk result (out.new.items ≡ out.old.items ++ error_frame (record { status = status; reason = None })) }
    ensures err { OnErr result (out.new.items ≡ out.old.items) }
{
    let error = ErrorFrame {
        status,
        reason: UaString::null(),
    };
    error.write(out)
}

/// Takes the whole frames of the buffer and of the piece behind it, up to the first that is refused or closes. The
/// result is the end that they brought, if any; without one, the buffer has what is left. It has room for the longest
/// frame.
pub(crate) fn take_frames(
    connection: &mut Connection,
    now: u64,
    buffer: &mut FrameBuf,
    piece: &[u8],
    asked: &mut Vec<Request>,
    out: &mut Vec<u8>,
) -> Result<Option<End>, NoMemory>
    requires moment { connection.old.moment ≤ now }
    requires stamp { now < 2 ^ 63 }
    requires room { connection.old.site.settings.limits.receive ≤ buffer.old.capacity }
    ensures heard { IfOk result (λ came. Hears connection.old connection.new now (buffer.old.bytes ++ piece.now)
        (record { bytes = out.old.items; asked = asked.old.items }) (record { bytes = out.new.items; asked = asked.new.items }) buffer.new.bytes came) }
    ensures moment { OnOk result (connection.new.moment ≤ now) }
    ensures part { OnErr result (HearsPart connection.old now (buffer.old.bytes ++ piece.now) out.old.items out.new.items) }
    ensures site { connection.new.site ≡ connection.old.site }
    ensures capacity { buffer.new.capacity ≡ buffer.old.capacity }
    ensures bound { length buffer.new.bytes ≤ buffer.new.capacity }
{
    let mut read = buffer.push(piece);
    if read == piece.len() && buffer.awaits(connection.greatest_frame()) {
        return Ok(None);
    }
    'frames: loop {
        match take_front(connection, now, buffer, asked, out)? {
            Step::Waits => {
                if read == piece.len() {
                    buffer.remember(connection.greatest_frame());
                    return Ok(None);
                }
                read += buffer.push(&piece[read..]);
            }
            Step::GoesOn => buffer.drop_first(),
            Step::Closed => return Ok(Some(End::Closed)),
            Step::Refused(status) => {
                refuse(status, out)?;
                return Ok(Some(End::Refused(status)));
            }
        }
    }
}
