//! One frame, lent from the bytes that it lies in.

ghost use Rattle.std.specs.Prelude.{◌≡◌, ℕ, ◌+◌, ◌<◌, ◌≤◌, ◌^◌, length, take, true, Some, None, IfOk, IfErr, OnOk, IfSome, OnSome, IfNone};
ghost use Rattle.ua_frame.specs.Layout.{kind_of, size_of, IsFrame, IsFrameOf, frame_bytes};
ghost use Rattle.ua_frame.specs.Rows.{first_row};
ghost use Rattle.ua_frame.specs.HeaderRows.{header_fault, flag_fits, rows_of};

use crate::kind::Kind;
use crate::status::{BAD_DECODING_ERROR, BAD_TCP_MESSAGE_TOO_LARGE, BAD_TCP_MESSAGE_TYPE_INVALID};
use std::marker::Model;

/// Bytes of a frame's header: three of its type, one of its flag, four of its size (OPC 10000-6, 7.1.2.2).
pub const HEADER: u32 = 8;

/// A whole frame of a known type, whose fields are lent. OPC 10000-6, 7.1.2.2 and 6.7.2.2.
#[derive(Drop)]
pub struct Frame<'a> {
    kind: Kind,
    flag: u8,
    fields: &'a [u8],
}

impl<'a> Model for Frame<'a> {
    ghost use Rattle.std.specs.Prelude.{◌≡◌, ◌+◌, ◌<◌, ◌^◌, length, true};
    ghost use Rattle.ua_frame.specs.Layout.{Parts};
    ghost use Rattle.ua_frame.specs.HeaderRows.{flag_fits};

    ghost Value = { Parts };

    ghost view = { λ a. record { kind = a.kind; flag = a.flag; fields = a.fields.now } };

    ghost invariant = { λ a. (8 + length a.fields.now < 2 ^ 32) × (flag_fits a.kind a.flag ≡ true) };
}

impl<'a> Frame<'a> {
    /// The frame's type.
    pub fn kind(&self) -> Kind
        ensures { result ≡ self.now.kind }
    {
        self.kind
    }

    /// The frame's flag: `C`, `F` or `A` of a message's chunk, `F` of any other frame.
    pub fn flag(&self) -> u8
        ensures flag { result ≡ self.now.flag }
        ensures fits { flag_fits self.now.kind result ≡ true }
    {
        self.flag
    }

    /// The bytes of the whole frame, its header included.
    pub fn len(&self) -> u32
        ensures { result ≡ 8 + length self.now.fields }
    {
        HEADER + self.fields.len() as u32
    }

    /// The bytes that follow the frame's header of 8 bytes.
    pub fn fields(&self) -> &'a [u8]
        ensures fields { result.now ≡ self.now.fields }
        ensures short { 8 + length result.now < 2 ^ 32 }
    {
        self.fields
    }
}

/// The type of a frame with this header, or the status of the first row that refuses it.
fn judged(kind: Option<Kind>, flag: u8, size: u32, limit: u32) -> Result<Kind, u32>
    ensures refused { IfErr result (λ status. first_row (rows_of kind flag size limit) ≡ Some status) }
    ensures passed { OnOk result (first_row (rows_of kind flag size limit) ≡ None) }
    ensures known { IfOk result (λ known. (kind ≡ Some known) × (flag_fits known flag ≡ true)) }
    ensures headed { OnOk result (8 ≤ size) }
{
    let Some(kind) = kind else {
        return Err(BAD_TCP_MESSAGE_TYPE_INVALID);
    };
    if !kind.allows(flag) {
        return Err(BAD_TCP_MESSAGE_TYPE_INVALID);
    }
    if size < HEADER {
        return Err(BAD_DECODING_ERROR);
    }
    if size > limit {
        return Err(BAD_TCP_MESSAGE_TOO_LARGE);
    }
    Ok(kind)
}

#[inline(always)]
#[tactic(auto, unfolding(crate::specs::Layout::kind_of))]
fn kind_in(bytes: &[u8]) -> Option<Kind>
    requires { 8 ≤ length bytes.now }
    ensures { result ≡ kind_of bytes.now }
{
    let (name, _) = bytes.split_at(3);
    Kind::named(name)
}

#[tactic(auto, unfolding(crate::specs::Streams::size_of))]
pub(crate) fn size_in(bytes: &[u8]) -> u32
    requires { 8 ≤ length bytes.now }
    ensures { result ≡ size_of bytes.now }
{
    u32::from_le_bytes([bytes[4], bytes[5], bytes[6], bytes[7]])
}

/// The frame that the bytes begin with, where it is whole and at most `limit` bytes long. It takes no memory.
/// OPC 10000-6, 7.1.2.2, 6.7.2.2 and 7.1.5.
///
/// `Ok(None)` says that more bytes are needed: no beginning of these is a frame, and as far as its 8 bytes are there,
/// the header is in order.
///
/// # Errors
///
/// As soon as the 8 bytes of the header are there, the status of the first of these that holds:
/// `BAD_TCP_MESSAGE_TYPE_INVALID` where the type is none of [`Kind`], and where the flag is none of that type's;
/// `BAD_DECODING_ERROR` where the size is under 8 bytes; `BAD_TCP_MESSAGE_TOO_LARGE` where it is over `limit` bytes.
/// These are the header rows of docs/PROTOCOL.md, which hold whether the rest of the frame is there or not.
#[inline(always)]
pub fn frame_at(bytes: &[u8], limit: u32) -> Result<Option<Frame<'_>>, u32>
    // The header decides, whether the rest of the frame is there or not.
    ensures refused { IfErr result (λ status. header_fault limit bytes.now ≡ Some status) }
    ensures passed { OnOk result (header_fault limit bytes.now ≡ None) }

    // A frame is the one at the front, and these bytes are its one spelling.
    ensures within { IfOk result (λ found. OnSome found (size_of bytes.now ≤ length bytes.now)) }
    ensures frame { IfOk result (λ found. IfSome found (λ f. IsFrameOf (take (size_of bytes.now) bytes.now) f)) }
    ensures spelled { IfOk result (λ found. IfSome found (λ f. take (size_of bytes.now) bytes.now ≡ frame_bytes f)) }

    // Without one, no beginning of the bytes is a frame.
    ensures none { IfOk result (λ found. IfNone found ((n : ℕ) → n ≤ length bytes.now → IsFrame (take n bytes.now) → ⊥)) }
{
    if bytes.len() < HEADER as usize {
        return Ok(None);
    }
    let flag = bytes[3];
    let size = size_in(bytes);
    let kind = judged(kind_in(bytes), flag, size, limit)?;
    let size = size as usize;
    if bytes.len() < size {
        return Ok(None);
    }
    let fields = &bytes[HEADER as usize..size];
    Ok(Some(Frame { kind, flag, fields }))
}
