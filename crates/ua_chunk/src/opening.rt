//! What OPN frames carry.

ghost use Rattle.std.specs.Prelude.{◌≡◌, Some, None, option_copied, IfOk, IfErr};
ghost use Rattle.ua_chunk.specs.Layout.{open_chunk_of, open_chunk_in};

use std::marker::Model;
use ua_frame::status::BAD_DECODING_ERROR;
use ua_frame::{Frame, Kind};
use ua_value::plumbing::{bytes_front, front_u32, string_front};

/// What an OPN frame carries, lent from it. OPC 10000-6, 6.7.2.3 and 6.7.2.4.
#[derive(Drop)]
pub struct OpenChunk<'a> {
    channel: u32,
    policy: Option<&'a str>,
    sequence: u32,
    request_id: u32,
    body: &'a [u8],
}

impl<'a> Model for OpenChunk<'a> {
    ghost use Rattle.std.specs.Prelude.{option_copied};
    ghost use Rattle.ua_chunk.specs.Layout.{OpenChunk as Open};

    ghost Value = { Open };

    ghost view = { λ a. record { channel = a.channel; policy = option_copied a.policy; sequence = a.sequence; request_id = a.request_id; body = a.body.now } };
}

impl<'a> OpenChunk<'a> {
    /// The id of the secure channel, 0 where it is not open yet.
    pub fn channel(&self) -> u32
        ensures { result ≡ self.now.channel }
    {
        self.channel
    }

    /// The URI of the security policy, if there is one.
    pub fn policy(&self) -> Option<&'a str>
        ensures { option_copied result ≡ self.now.policy }
    {
        self.policy
    }

    /// The sequence number.
    pub fn sequence(&self) -> u32
        ensures { result ≡ self.now.sequence }
    {
        self.sequence
    }

    /// The request id.
    pub fn request_id(&self) -> u32
        ensures { result ≡ self.now.request_id }
    {
        self.request_id
    }

    /// The body, which is whole.
    pub fn body(&self) -> &'a [u8]
        ensures { result.now ≡ self.now.body }
    {
        self.body
    }
}

/// The OPN with these fields, if they have its layout.
#[tactic(auto, unfolding(crate::specs::Layout::open_chunk_of, crate::specs::Layout::open_header))]
fn open_at(fields: &[u8]) -> Option<OpenChunk<'_>>
    ensures { result ≡ open_chunk_of fields.now }
{
    let (channel, rest) = front_u32(fields)?;
    let (policy, rest) = string_front(rest)?;
    let (_certificate, rest) = bytes_front(rest)?;
    let (_thumbprint, rest) = bytes_front(rest)?;
    let (sequence, rest) = front_u32(rest)?;
    let (request_id, body) = front_u32(rest)?;
    Some(OpenChunk {
        channel,
        policy,
        sequence,
        request_id,
        body,
    })
}

/// What an OPN frame carries: channel id, policy URI, sequence number, request id and body. The certificate and the
/// thumbprint of the security header are passed over. It takes no memory. OPC 10000-6, 6.7.2.3 and 6.7.2.4.
///
/// # Errors
///
/// `BAD_DECODING_ERROR` exactly where the frame is no OPN, or its fields have not the layout of one.
pub fn open_chunk<'a>(frame: &Frame<'a>) -> Result<OpenChunk<'a>, u32>
    ensures found { IfOk result (λ c. open_chunk_in frame.now ≡ Some c) }
    ensures refused { IfErr result (λ status. (open_chunk_in frame.now ≡ None) × (status ≡ 0x80070000)) }
{
    if frame.kind() != Kind::Open {
        return Err(BAD_DECODING_ERROR);
    }
    match open_at(frame.fields()) {
        Some(chunk) => Ok(chunk),
        None => Err(BAD_DECODING_ERROR),
    }
}
