//! The frames of messages.

ghost use Rattle.std.specs.Prelude.{◌≡◌, ◌+◌, ◌≤◌, [], ◌++◌, length, take, drop, is_ok, if◌then◌else◌, OnErr, IfOk};
ghost use Rattle.ua_chunk.specs.Numbers.{most_part, number_after};
ghost use Rattle.ua_chunk.specs.NumberLaws.{IsNumber};
ghost use Rattle.ua_chunk.specs.Cutting.{carried, IsCut};
ghost use Rattle.ua_chunk.specs.Cut.{part_count, fill};
ghost use Rattle.ua_chunk.specs.Written.{message_frames};

use crate::cutting::{Cutting, Place, Plan, next_header};
use crate::sequence::Sequence;
use crate::writing::{CHUNK_HEADER, Head};
use std::mem;
use ua_value::plumbing::Raw;
use ua_value::{Emit, NoMemory};

/// How many chunks hold a message of `len` bytes with at most `part_limit` bytes in each. An empty message has one.
/// OPC 10000-6, 6.7.2.
pub fn chunk_count(len: u64, part_limit: u32) -> u64
    requires { 1 ≤ part_limit }
    ensures { result ≡ part_count len part_limit }
{
    match len {
        0 => 1,
        _ => (len - 1) / part_limit as u64 + 1,
    }
}

/// Appends the rest of a message's frames behind the header of the first. The result is the sequence number behind them.
///
/// # Errors
///
/// `NoMemory` where the growth of `out` is refused; a beginning of what is appended may then stand in it.
fn put_cut<M: Emit>(message: &M, plan: &Plan, at: Place, out: &mut Vec<u8>) -> Result<u32, NoMemory>
    requires most { plan.now.part_limit ≤ most_part }
    requires total { plan.now.total ≡ length (M.spelling message.now) }
    requires cut { IsCut plan.now.head.channel plan.now.head.token plan.now.head.request_id plan.now.part_limit plan.now.total plan.now.first at.number at.left at.room at.full (drop plan.now.start out.old.items) }
    requires none { carried at.full plan.now.part_limit (drop plan.now.start out.old.items) ≡ [] }
    ensures frames { IfOk result (λ n. out.new.items ≡ take plan.now.start out.old.items ++ message_frames plan.now.head.channel plan.now.head.token plan.now.first 0 (fill plan.now.head.request_id (M.spelling message.now) plan.now.part_limit)) }
    ensures number { IfOk result (λ n. n ≡ number_after plan.now.first (part_count (length (M.spelling message.now)) plan.now.part_limit)) }
    ensures begins { OnErr result (take plan.now.start out.new.items ≡ take plan.now.start out.old.items) }
{
    let empty = Vec::new(*out.allocator());
    let mut cutting = Cutting {
        out: mem::replace(out, empty),
        plan: *plan,
        at,
    };
    let put = message.emit(&mut cutting);
    let Cutting { out: cut, at, .. } = cutting;
    *out = cut;
    match put {
        Ok(()) => Ok(at.number),
        Err(e) => Err(e),
    }
}

/// Appends the frames of a message. The room for all of them is asked for once, before the first byte. The result is
/// the sequence number behind them.
///
/// # Errors
///
/// `NoMemory` where the growth of `out` is refused; a beginning of what is appended may then stand in it.
fn put_frames<M: Emit>(message: &M, plan: &Plan, out: &mut Vec<u8>) -> Result<u32, NoMemory>
    requires some { 1 ≤ plan.now.part_limit }
    requires most { plan.now.part_limit ≤ most_part }
    requires number { IsNumber plan.now.first }
    requires total { plan.now.total ≡ length (M.spelling message.now) }
    requires start { plan.now.start ≡ length out.old.items }
    ensures frames { IfOk result (λ n. out.new.items ≡ out.old.items ++ message_frames plan.now.head.channel plan.now.head.token plan.now.first 0 (fill plan.now.head.request_id (M.spelling message.now) plan.now.part_limit)) }
    ensures number { IfOk result (λ n. n ≡ number_after plan.now.first (part_count (length (M.spelling message.now)) plan.now.part_limit)) }
    ensures begins { OnErr result (take (length out.old.items) out.new.items ≡ out.old.items) }
{
    let headers = chunk_count(plan.total, plan.part_limit).saturating_mul(CHUNK_HEADER as u64);
    out.reserve(headers.saturating_add(plan.total) as usize)?;
    let mut at = Place {
        number: plan.first,
        left: plan.total,
        room: 0,
        full: 0,
    };
    let header = next_header(plan, &mut at);
    out.extend_from_slice(&header)?;
    if plan.total <= plan.part_limit as u64 {
        message.emit(out)?;
        return Ok(at.number);
    }
    put_cut(message, plan, at, out)
}

/// Appends the MSG frames of a message: parts of `part_limit` bytes, the last of 1 to `part_limit` bytes, and one empty
/// part for an empty `message`. Each is flagged `C` but the last, which is `F`, and each has the next sequence number.
/// The message is emitted into `out` itself, with the headers put in between, and the room for all frames is asked for
/// once. OPC 10000-6, 6.7.2.2 to 6.7.2.4.
///
/// # Errors
///
/// `NoMemory` where the growth of `out` is refused; `out` and `sequence` are then unchanged.
pub fn write_message<M: Emit>(
    message: &M,
    head: &Head,
    part_limit: u32,
    sequence: &mut Sequence,
    out: &mut Vec<u8>,
) -> Result<(), NoMemory>
    requires some { 1 ≤ part_limit }
    requires most { part_limit ≤ most_part }
    ensures written { out.new.items ≡ (if is_ok result then out.old.items ++ message_frames head.now.channel head.now.token sequence.old 0 (fill head.now.request_id (M.spelling message.now) part_limit) else out.old.items) }
    ensures numbered { sequence.new ≡ (if is_ok result then number_after sequence.old (part_count (length (M.spelling message.now)) part_limit) else sequence.old) }
{
    write_measured(message, message.emit_len(), head, part_limit, sequence, out)
}

/// Appends the MSG frames of a message whose length is known, as `write_message` does.
///
/// # Errors
///
/// `NoMemory` where the growth of `out` is refused; `out` and `sequence` are then unchanged.
pub fn write_measured<M: Emit>(
    message: &M,
    len: u64,
    head: &Head,
    part_limit: u32,
    sequence: &mut Sequence,
    out: &mut Vec<u8>,
) -> Result<(), NoMemory>
    requires len { len ≡ length (M.spelling message.now) }
    requires some { 1 ≤ part_limit }
    requires most { part_limit ≤ most_part }
    ensures written { out.new.items ≡ (if is_ok result then out.old.items ++ message_frames head.now.channel head.now.token sequence.old 0 (fill head.now.request_id (M.spelling message.now) part_limit) else out.old.items) }
    ensures numbered { sequence.new ≡ (if is_ok result then number_after sequence.old (part_count (length (M.spelling message.now)) part_limit) else sequence.old) }
{
    let start = out.len();
    let plan = Plan {
        head: *head,
        part_limit,
        total: len,
        first: sequence.peek(),
        start,
    };
    match put_frames(message, &plan, out) {
        Ok(next) => {
            *sequence = Sequence::starting_at(next);
            Ok(())
        }
        Err(e) => {
            out.truncate(start);
            Err(e)
        }
    }
}

/// Appends the MSG frames of a message: parts of `part_limit` bytes, the last of 1 to `part_limit` bytes, and one empty
/// part for an empty `body`. Each is flagged `C` but the last, which is `F`, and each has the next sequence number.
/// OPC 10000-6, 6.7.2.2 to 6.7.2.4.
///
/// # Errors
///
/// `NoMemory` where the growth of `out` is refused; `out` and `sequence` are then unchanged.
pub fn write_chunks(
    body: &[u8],
    head: &Head,
    part_limit: u32,
    sequence: &mut Sequence,
    out: &mut Vec<u8>,
) -> Result<(), NoMemory>
    requires some { 1 ≤ part_limit }
    requires most { part_limit ≤ most_part }
    ensures written { out.new.items ≡ (if is_ok result then out.old.items ++ message_frames head.now.channel head.now.token sequence.old 0 (fill head.now.request_id body.now part_limit) else out.old.items) }
    ensures numbered { sequence.new ≡ (if is_ok result then number_after sequence.old (part_count (length body.now) part_limit) else sequence.old) }
{
    write_message(&Raw { bytes: body }, head, part_limit, sequence, out)
}
