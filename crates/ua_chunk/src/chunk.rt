//! What MSG and CLO frames carry.

ghost use Rattle.std.specs.Prelude.{◌≡◌, Some, None, IfOk, IfErr};
ghost use Rattle.ua_chunk.specs.Layout.{chunk_of, chunk_in, with_flag};

use std::marker::Model;
use ua_frame::status::BAD_DECODING_ERROR;
use ua_frame::{Frame, Kind};
use ua_value::plumbing::front_u32;

/// What a MSG or CLO frame carries, lent from it. OPC 10000-6, 6.7.2.3 and 6.7.2.4.
#[derive(Drop)]
pub struct Chunk<'a> {
    kind: Kind,
    flag: u8,
    channel: u32,
    token: u32,
    sequence: u32,
    request_id: u32,
    body: &'a [u8],
}

impl<'a> Model for Chunk<'a> {
    ghost use Rattle.ua_chunk.specs.Layout.{FlaggedChunk, Chunk as Fields};

    ghost Value = { FlaggedChunk };

    ghost view = { λ a. let c : Fields = record { channel = a.channel; token = a.token; sequence = a.sequence; request_id = a.request_id; body = a.body.now } in record { kind = a.kind; flag = a.flag; chunk = c } };
}

impl<'a> Chunk<'a> {
    /// The type of its frame: MSG or CLO.
    pub fn kind(&self) -> Kind
        ensures { result ≡ self.now.kind }
    {
        self.kind
    }

    /// The flag of its frame: `C` where more parts of the message follow, `F` at the last, `A` where it is given up.
    pub fn flag(&self) -> u8
        ensures { result ≡ self.now.flag }
    {
        self.flag
    }

    /// The id of the secure channel.
    pub fn channel(&self) -> u32
        ensures { result ≡ self.now.chunk.channel }
    {
        self.channel
    }

    /// The id of the token.
    pub fn token(&self) -> u32
        ensures { result ≡ self.now.chunk.token }
    {
        self.token
    }

    /// The sequence number.
    pub fn sequence(&self) -> u32
        ensures { result ≡ self.now.chunk.sequence }
    {
        self.sequence
    }

    /// The request id, which all parts of a message have.
    pub fn request_id(&self) -> u32
        ensures { result ≡ self.now.chunk.request_id }
    {
        self.request_id
    }

    /// The part of the message, or the body of the close request or of the abort.
    pub fn body(&self) -> &'a [u8]
        ensures { result.now ≡ self.now.chunk.body }
    {
        self.body
    }
}

/// The MSG or CLO with these fields, if they have its layout.
#[inline(always)]
#[tactic(auto, unfolding(crate::specs::Layout::chunk_of, crate::specs::Layout::chunk_header))]
fn chunk_at(kind: Kind, flag: u8, fields: &[u8]) -> Option<Chunk<'_>>
    ensures { result ≡ with_flag kind flag (chunk_of fields.now) }
{
    let (channel, rest) = front_u32(fields)?;
    let (token, rest) = front_u32(rest)?;
    let (sequence, rest) = front_u32(rest)?;
    let (request_id, body) = front_u32(rest)?;
    Some(Chunk {
        kind,
        flag,
        channel,
        token,
        sequence,
        request_id,
        body,
    })
}

/// What a MSG or CLO frame carries: channel id, token id, sequence number, request id and body, with the type and the
/// flag of the frame. It takes no memory. OPC 10000-6, 6.7.2.2 to 6.7.2.4.
///
/// # Errors
///
/// `BAD_DECODING_ERROR` exactly where the frame is neither a MSG nor a CLO, or has fewer than the 16 bytes of these
/// numbers.
#[inline(always)]
pub fn message_chunk<'a>(frame: &Frame<'a>) -> Result<Chunk<'a>, u32>
    ensures found { IfOk result (λ c. chunk_in frame.now ≡ Some c) }
    ensures refused { IfErr result (λ status. (chunk_in frame.now ≡ None) × (status ≡ 0x80070000)) }
{
    let kind = frame.kind();
    match kind {
        Kind::Message | Kind::Close => {}
        _ => return Err(BAD_DECODING_ERROR),
    }
    match chunk_at(kind, frame.flag(), frame.fields()) {
        Some(chunk) => Ok(chunk),
        None => Err(BAD_DECODING_ERROR),
    }
}
