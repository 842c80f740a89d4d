//! What the frames of a channel carry, as both ends read them.

ghost use Rattle.std.specs.Prelude.{◌≡◌, ◌<◌, ◌^◌, length, true, Some, None, IfOk, IfErr};
ghost use Rattle.ua_value.specs.Format.{IsBytes};
ghost use Rattle.ua_chunk.specs.Layout.{open_chunk_of, chunk_of, with_flag};
ghost use Rattle.ua_conn.specs.Past.{has_token};

use ua_chunk::{Chunk, OpenChunk, message_chunk, open_chunk};
use ua_frame::{Frame, Kind};

/// Says in a contract that what is lent is bytes.
fn are_bytes(bytes: &[u8])
    ensures { IsBytes bytes.now }
{
    let _len = bytes.len();
}

/// What a MSG or CLO carries; its body is as short as a frame.
pub(crate) fn chunk_of<'a>(frame: &Frame<'a>) -> Result<Chunk<'a>, u32>
    requires { has_token (Some frame.now.kind) ≡ true }
    ensures found { IfOk result (λ c. with_flag frame.now.kind frame.now.flag (chunk_of frame.now.fields) ≡ Some c) }
    ensures short { IfOk result (λ c. length c.chunk.body < 2 ^ 32) }
    ensures refused { IfErr result (λ status. (chunk_of frame.now.fields ≡ None) × (status ≡ 0x80070000)) }
{
    are_bytes(frame.fields());
    message_chunk(frame)
}

/// What an OPN carries; its body is as short as a frame.
pub(crate) fn opening_of<'a>(frame: &Frame<'a>) -> Result<OpenChunk<'a>, u32>
    requires { frame.now.kind ≡ Kind.Open }
    ensures found { IfOk result (λ c. open_chunk_of frame.now.fields ≡ Some c) }
    ensures short { IfOk result (λ c. length c.body < 2 ^ 32) }
    ensures refused { IfErr result (λ status. (open_chunk_of frame.now.fields ≡ None) × (status ≡ 0x80070000)) }
{
    are_bytes(frame.fields());
    open_chunk(frame)
}
