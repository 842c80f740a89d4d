//! Frames that come over an open channel.

ghost use Rattle.std.specs.Prelude.{◌≡◌, ◌<◌, ◌≤◌, ◌^◌, true, Some};
ghost use Rattle.ua_chunk.specs.Layout.{chunk_of};
ghost use Rattle.ua_conn.specs.Past.{has_token};
ghost use Rattle.ua_conn.specs.server.Effects.{admitted_rows, Judges};
ghost use Rattle.ua_conn.specs.server.Parts.{IsHeard};

use crate::content::chunk_of;
use crate::server::fault::Fault;
use ua_channel::ServerChannel;
use ua_chunk::Chunk;
use ua_frame::Frame;

/// Admits a MSG or CLO whose last byte came at `now`. OPC 10000-6, 6.7.2.3 and 6.7.2.4; OPC 10000-4, 5.6.2.1.
#[inline(always)]
pub(crate) fn admitted_chunk<'a>(
    channel: &mut ServerChannel,
    frame: &Frame<'a>,
    now: u64,
) -> Result<Chunk<'a>, Fault>
    requires kind { has_token (Some frame.now.kind) ≡ true }
    requires stamp { now < 2 ^ 63 }
    requires later { channel.old.moment ≤ now }
    ensures judged { Judges (admitted_rows channel.old.channel now (chunk_of frame.now.fields)) (λ c. IsHeard channel.old channel.new frame.now now c) result }
    ensures id { channel.new.channel.id ≡ channel.old.channel.id }
    ensures moment { channel.new.moment ≤ now }
{
    let chunk = chunk_of(frame)?;
    channel.admit(&chunk, now as i64)?;
    Ok(chunk)
}
