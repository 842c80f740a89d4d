//! Frames that are written, but those of messages.

ghost use Rattle.std.specs.Prelude.{◌≡◌, ◌+◌, ◌<◌, ◌≤◌, ◌^◌, ◌++◌, List, ℕ, length, take, is_ok, if◌then◌else◌, OnOk, OnErr};
ghost use Rattle.std.specs.Int.{w32, to_le_bytes};
ghost use Rattle.ua_frame.specs.Layout.{header};
ghost use Rattle.ua_frame.specs.Sizes.{most_buffer};
ghost use Rattle.ua_chunk.specs.Numbers.{number_after};
ghost use Rattle.ua_chunk.specs.NumberLaws.{IsNumber};
ghost use Rattle.ua_chunk.specs.Written.{open_frame, chunk_frame, close_frame, abort_frame};

use crate::sequence::Sequence;
use ua_frame::{HEADER, Kind, POLICY_NONE};
use ua_value::NoMemory;

/// Bytes before the body of a chunk's frame: type, flag, size, channel id, token id, sequence number and request id.
pub const CHUNK_HEADER: u32 = 24;

/// Bytes of an OPN's fields before the body, by the policy None.
const OPEN_FIELDS: u32 = 71;

/// A null certificate and a null thumbprint.
const NO_CERTIFICATE: [u8; 8] = [255; 8];

/// What all chunks of a message have. OPC 10000-6, 6.7.2.3 and 6.7.2.4.
#[derive(Clone, Copy, Debug, PartialEq, Eq)]
pub struct Head {
    /// The id of the secure channel.
    pub channel: u32,
    /// The id of the token.
    pub token: u32,
    /// The request id.
    pub request_id: u32,
}

fn put_header(kind: Kind, flag: u8, len: u32, out: &mut Vec<u8>) -> Result<(), NoMemory>
    requires { 8 + len < 2 ^ 32 }
    ensures ok { OnOk result (out.new.items ≡ out.old.items ++ header kind flag len) }
    ensures err { OnErr result (take (length out.old.items) out.new.items ≡ out.old.items) }
{
    out.extend_from_slice(kind.name())?;
    out.push(flag)?;
    out.extend_from_slice(&(HEADER + len).to_le_bytes())
}

fn put_number(number: u32, out: &mut Vec<u8>) -> Result<(), NoMemory>
    ensures { out.new.items ≡ (if is_ok result then out.old.items ++ to_le_bytes w32 number else out.old.items) }
{
    out.extend_from_slice(&number.to_le_bytes())
}

/// What stands before the body of a chunk's frame, where the body has `len` bytes.
#[inline(always)]
pub(crate) fn chunk_header(kind: Kind, flag: u8, head: &Head, number: u32, len: u32) -> [u8; 24]
    requires { 24 + len < 2 ^ 32 }
    ensures { (body : List ℕ) → length body ≡ len → result ++ body ≡ chunk_frame kind flag head.now.channel head.now.token number head.now.request_id body }
{
    let name = kind.name();
    let (k0, k1, k2) = (name[0], name[1], name[2]);
    let [l0, l1, l2, l3] = (CHUNK_HEADER + len).to_le_bytes();
    let [c0, c1, c2, c3] = head.channel.to_le_bytes();
    let [t0, t1, t2, t3] = head.token.to_le_bytes();
    let [n0, n1, n2, n3] = number.to_le_bytes();
    let [r0, r1, r2, r3] = head.request_id.to_le_bytes();
    [
        k0, k1, k2, flag, l0, l1, l2, l3, c0, c1, c2, c3, t0, t1, t2, t3, n0, n1, n2, n3, r0, r1,
        r2, r3,
    ]
}

/// Appends the frame of one chunk, or where memory runs out a beginning of it.
fn put_chunk(
    kind: Kind,
    flag: u8,
    head: &Head,
    number: u32,
    body: &[u8],
    out: &mut Vec<u8>,
) -> Result<(), NoMemory>
    requires { length body.now ≤ most_buffer }
    ensures ok { OnOk result (out.new.items ≡ out.old.items ++ chunk_frame kind flag head.now.channel head.now.token number head.now.request_id body.now) }
    ensures err { OnErr result (take (length out.old.items) out.new.items ≡ out.old.items) }
{
    let len = body.len() as u32;
    out.reserve((CHUNK_HEADER + len) as usize)?;
    out.extend_from_slice(&chunk_header(kind, flag, head, number, len))?;
    out.extend_from_slice(body)
}

/// Appends an OPN frame, or where memory runs out a beginning of it.
fn put_open(
    channel: u32,
    number: u32,
    request_id: u32,
    body: &[u8],
    out: &mut Vec<u8>,
) -> Result<(), NoMemory>
    requires { length body.now ≤ most_buffer }
    ensures ok { OnOk result (out.new.items ≡ out.old.items ++ open_frame channel number request_id body.now) }
    ensures err { OnErr result (take (length out.old.items) out.new.items ≡ out.old.items) }
{
    let policy = POLICY_NONE.as_bytes();
    put_header(Kind::Open, b'F', OPEN_FIELDS + body.len() as u32, out)?;
    put_number(channel, out)?;
    put_number(policy.len() as u32, out)?;
    out.extend_from_slice(policy)?;
    out.extend_from_slice(&NO_CERTIFICATE)?;
    put_number(number, out)?;
    put_number(request_id, out)?;
    out.extend_from_slice(body)
}

/// Appends the frame of one chunk, or leaves `out` unchanged.
fn write_chunk(
    kind: Kind,
    flag: u8,
    head: &Head,
    sequence: &mut Sequence,
    body: &[u8],
    out: &mut Vec<u8>,
) -> Result<(), NoMemory>
    requires { length body.now ≤ most_buffer }
    ensures written { out.new.items ≡ (if is_ok result then out.old.items ++ chunk_frame kind flag head.now.channel head.now.token sequence.old head.now.request_id body.now else out.old.items) }
    ensures numbered { sequence.new ≡ (if is_ok result then number_after sequence.old 1 else sequence.old) }
    ensures range { IsNumber sequence.old }
{
    let start = out.len();
    match put_chunk(kind, flag, head, sequence.peek(), body, out) {
        Ok(()) => {
            sequence.take();
            Ok(())
        }
        Err(e) => {
            out.truncate(start);
            Err(e)
        }
    }
}

/// Appends the OPN frame with the body of an open request or response, under the security policy None, without
/// certificate and thumbprint. It has the next sequence number. OPC 10000-6, 6.7.2.
///
/// # Errors
///
/// `NoMemory` where the growth of `out` is refused; `out` and `sequence` are then unchanged.
pub fn write_open(
    channel: u32,
    request_id: u32,
    body: &[u8],
    sequence: &mut Sequence,
    out: &mut Vec<u8>,
) -> Result<(), NoMemory>
    requires { length body.now ≤ most_buffer }
    ensures written { out.new.items ≡ (if is_ok result then out.old.items ++ open_frame channel sequence.old request_id body.now else out.old.items) }
    ensures numbered { sequence.new ≡ (if is_ok result then number_after sequence.old 1 else sequence.old) }
{
    let start = out.len();
    match put_open(channel, sequence.peek(), request_id, body, out) {
        Ok(()) => {
            sequence.take();
            Ok(())
        }
        Err(e) => {
            out.truncate(start);
            Err(e)
        }
    }
}

/// Appends the CLO frame with the body of a close request. It has the next sequence number. OPC 10000-6, 6.7.2.
///
/// # Errors
///
/// `NoMemory` where the growth of `out` is refused; `out` and `sequence` are then unchanged.
pub fn write_close(
    channel: u32,
    token: u32,
    request_id: u32,
    body: &[u8],
    sequence: &mut Sequence,
    out: &mut Vec<u8>,
) -> Result<(), NoMemory>
    requires { length body.now ≤ most_buffer }
    ensures written { out.new.items ≡ (if is_ok result then out.old.items ++ close_frame channel token sequence.old request_id body.now else out.old.items) }
    ensures numbered { sequence.new ≡ (if is_ok result then number_after sequence.old 1 else sequence.old) }
{
    let head = Head {
        channel,
        token,
        request_id,
    };
    write_chunk(Kind::Close, b'F', &head, sequence, body, out)
}

/// Appends the MSG frame by which a sender gives a message up, with the reason as a status and no text. It has the next
/// sequence number. OPC 10000-6, 6.7.3.
///
/// # Errors
///
/// `NoMemory` where the growth of `out` is refused; `out` and `sequence` are then unchanged.
#[tactic(auto, unfolding(crate::specs::Layout::abort_body, ua_value::specs::Number::unsigned, ua_value::specs::Text::bytes_of))]
pub fn write_abort(
    channel: u32,
    token: u32,
    request_id: u32,
    status: u32,
    sequence: &mut Sequence,
    out: &mut Vec<u8>,
) -> Result<(), NoMemory>
    ensures written { out.new.items ≡ (if is_ok result then out.old.items ++ abort_frame channel token sequence.old request_id status else out.old.items) }
    ensures numbered { sequence.new ≡ (if is_ok result then number_after sequence.old 1 else sequence.old) }
{
    let head = Head {
        channel,
        token,
        request_id,
    };
    let [a, b, c, d] = status.to_le_bytes();
    let body = [a, b, c, d, 255, 255, 255, 255];
    write_chunk(Kind::Message, b'A', &head, sequence, &body, out)
}
