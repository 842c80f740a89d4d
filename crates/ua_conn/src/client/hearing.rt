//! The frames of a piece of a server's bytes, one after another.

ghost use Rattle.std.specs.Prelude.{◌≡◌, ◌<◌, ◌≤◌, ◌++◌, ◌^◌, length, false, Ok, IfErr, OnOk};
ghost use Rattle.ua_conn.specs.client.Hearing.{Steps, Hears, BreaksBy};

use crate::client::answer::Answer;
use crate::client::connection::Connection;
use crate::client::fault::ClientFault;
use ua_frame::FrameBuf;

/// Takes the frame at the front of the buffer, where a whole one is there. It stays there; the result says whether
/// there was one.
fn take_front(
    connection: &mut Connection,
    now: u64,
    buffer: &FrameBuf,
    answers: &mut Vec<Answer>,
    out: &mut Vec<u8>,
) -> Result<bool, ClientFault>
    requires moment { connection.old.moment ≤ now }
    requires stamp { now < 2 ^ 63 }
    requires room { connection.old.config.buffer ≤ buffer.now.capacity }
    ensures step { Steps connection.old connection.new now buffer.now.bytes
        (record { bytes = out.old.items; answers = answers.old.items }) (record { bytes = out.new.items; answers = answers.new.items }) result }
    ensures moment { OnOk result (connection.new.moment ≤ now) }
    ensures config { connection.new.config ≡ connection.old.config }

    // A full buffer has a whole frame, or a header that is refused.
    ensures room { result ≡ Ok false → length buffer.now.bytes < buffer.now.capacity }
{
    let frame = match buffer.first(connection.greatest_frame()) {
        Ok(Some(frame)) => frame,
        Ok(None) => return Ok(false),
        Err(status) => return Err(ClientFault::Broken(status)),
    };
    match connection.take(&frame, now, answers, out) {
        Ok(()) => Ok(true),
        Err(fault) => Err(fault),
    }
}

/// Takes the whole frames of the buffer and of the piece behind it, up to the first that is refused. The buffer has
/// what is left, with room for the longest frame.
pub(crate) fn take_frames(
    connection: &mut Connection,
    now: u64,
    buffer: &mut FrameBuf,
    piece: &[u8],
    answers: &mut Vec<Answer>,
    out: &mut Vec<u8>,
) -> Result<(), ClientFault>
    requires moment { connection.old.moment ≤ now }
    requires stamp { now < 2 ^ 63 }
    requires room { connection.old.config.buffer ≤ buffer.old.capacity }
    ensures heard { OnOk result (Hears connection.old connection.new now (buffer.old.bytes ++ piece.now)
        (record { bytes = out.old.items; answers = answers.old.items }) (record { bytes = out.new.items; answers = answers.new.items }) buffer.new.bytes) }
    ensures breaks { IfErr result (λ fault. BreaksBy connection.old now (buffer.old.bytes ++ piece.now) out.old.items out.new.items fault) }
    ensures moment { OnOk result (connection.new.moment ≤ now) }
    ensures config { connection.new.config ≡ connection.old.config }
    ensures capacity { buffer.new.capacity ≡ buffer.old.capacity }
    ensures bound { length buffer.new.bytes ≤ buffer.new.capacity }
{
    let mut read = buffer.push(piece);
    if read == piece.len() && buffer.awaits(connection.greatest_frame()) {
        return Ok(());
    }
    'frames: loop {
        match take_front(connection, now, buffer, answers, out) {
            Ok(true) => buffer.drop_first(),
            Ok(false) => {
                if read == piece.len() {
                    buffer.remember(connection.greatest_frame());
                    return Ok(());
                }
                read += buffer.push(&piece[read..]);
            }
            Err(fault) => return Err(fault),
        }
    }
}
