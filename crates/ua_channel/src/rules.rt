//! What both ends test of a frame.

ghost use Rattle.std.specs.Prelude.{◌≡◌, None, Some, option_copied, IfErr, OnOk};
ghost use Rattle.std.specs.Str.{bytes_eq};
ghost use Rattle.ua_channel.specs.Admission.{follows_last, is_text, opening_rows_by, admit_rows};
ghost use Rattle.ua_channel.specs.Newest.{tokens_of};
ghost use Rattle.ua_frame.specs.Rows.{first_row};
ghost use Rattle.ua_chunk.specs.Layout.{policy_none};

use crate::newest::Newest;
use crate::status::{
    BAD_SECURE_CHANNEL_TOKEN_UNKNOWN, BAD_SECURITY_POLICY_REJECTED, BAD_SEQUENCE_NUMBER_INVALID,
    BAD_TCP_SECURE_CHANNEL_UNKNOWN,
};
use ua_chunk::{Chunk, OpenChunk, POLICY_NONE, follows};

/// Whether two texts are equal.
fn is_same(text: &str, other: &str) -> bool
    ensures { result ≡ bytes_eq text.now other.now }
{
    text == other
}

/// Whether it is the URI of the policy that signs and encrypts nothing.
fn is_policy_none(policy: Option<&str>) -> bool
    ensures { result ≡ is_text policy_none (option_copied policy.entry) }
{
    match policy {
        None => false,
        Some(policy) => is_same(policy, POLICY_NONE),
    }
}

/// Whether the number may come behind the last one; the first is free.
fn follows_last(last: Option<u32>, number: u32) -> bool
    ensures { result ≡ follows_last last number }
{
    match last {
        None => true,
        Some(last) => follows(last, number),
    }
}

/// Judges an OPN frame behind the last sequence number, which names another channel than it has to or not.
///
/// `Err` is the status of the first row that refuses it: open channel, policy, open sequence number. OPC 10000-6,
/// 6.7.2.3 and 6.7.2.4.
pub(crate) fn judge_open(is_other: bool, last: Option<u32>, chunk: &OpenChunk) -> Result<(), u32>
    ensures refused { IfErr result (λ status.
        first_row (opening_rows_by last chunk.now is_other) ≡ Some status) }
    ensures admitted { OnOk result (
        first_row (opening_rows_by last chunk.now is_other) ≡ None) }
{
    if is_other {
        return Err(BAD_TCP_SECURE_CHANNEL_UNKNOWN);
    }
    if !is_policy_none(chunk.policy()) {
        return Err(BAD_SECURITY_POLICY_REJECTED);
    }
    if !follows_last(last, chunk.sequence()) {
        return Err(BAD_SEQUENCE_NUMBER_INVALID);
    }
    Ok(())
}

/// Judges a MSG or CLO frame whose last byte came at the moment `now`, behind the last sequence number.
///
/// `Err` is the status of the first row that refuses it: message channel, token, message sequence number. OPC 10000-6,
/// 6.7.2.3 and 6.7.2.4; OPC 10000-4, 5.6.2.1.
#[inline(always)]
pub(crate) fn judge(
    id: u32,
    tokens: Newest,
    last: Option<u32>,
    chunk: &Chunk,
    now: u64,
) -> Result<(), u32>
    ensures refused { IfErr result (λ status.
        first_row (admit_rows (record { id = id; tokens = tokens_of tokens; last = last; used = None }) chunk.now.chunk now) ≡ Some status) }
    ensures admitted { OnOk result (
        first_row (admit_rows (record { id = id; tokens = tokens_of tokens; last = last; used = None }) chunk.now.chunk now) ≡ None) }
{
    if chunk.channel() != id {
        return Err(BAD_TCP_SECURE_CHANNEL_UNKNOWN);
    }
    if !tokens.is_usable(chunk.token(), now) {
        return Err(BAD_SECURE_CHANNEL_TOKEN_UNKNOWN);
    }
    if !follows_last(last, chunk.sequence()) {
        return Err(BAD_SEQUENCE_NUMBER_INVALID);
    }
    Ok(())
}
