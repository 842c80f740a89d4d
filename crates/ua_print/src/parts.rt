//! A message whose parts lie apart: the encoding id that it begins with, and its line.

ghost use Rattle.std.specs.Prelude.{◌≡◌, ◌≤◌, ℕ, List, ◌++◌, length, IfOk, IfSome, IsTrue, OnOk, None, Some, string_bytes};
ghost use Rattle.ua_print.specs.FrameLine.{type_in, message_line};
ghost use Rattle.ua_walk.specs.Parts.{joined};

use crate::frame_line::{add_message, add_message_text, type_of};
use std::alloc::Global;
use ua_value::{NoMemory, NodeId};
use ua_walk::{join, size_of};

/// The encoding id that the joined parts, of so many bytes, begin with, if any.
fn type_of_joined(alloc: Global, parts: &[&[u8]], size: usize) -> Result<Option<NodeId>, NoMemory>
    ensures { IfOk result (λ id. id ≡ type_in (joined parts.now)) }
{
    let whole = join(alloc, parts, size)?;
    type_of(alloc, whole.as_slice())
}

/// The encoding id that these bytes begin with, and whatever follows them, if these have it whole.
fn type_of_first(alloc: Global, bytes: &[u8]) -> Result<Option<NodeId>, NoMemory>
    ensures { IfOk result (λ found. IfSome found (λ id. (more : List ℕ) → type_in (bytes.now ++ more) ≡ Some id)) }
{
    type_of(alloc, bytes)
}

/// The greatest byte that a node id begins with.
const LAST_FORM: u8 = 5;

/// Whether what begins with these bytes begins with no encoding id, as by their first byte where bodies are encrypted.
fn has_no_type(bytes: &[u8]) -> bool
    ensures { IsTrue result → (more : List ℕ) → type_in (bytes.now ++ more) ≡ None }
{
    match bytes {
        [form, ..] => *form > LAST_FORM,
        [] => false,
    }
}

/// The encoding id that the joined parts, of so many bytes, begin with, if any. They are joined only where the first does
/// not tell. OPC 10000-6, 5.2.9.
///
/// # Errors
///
/// `NoMemory` where a growth was refused.
pub fn type_of_parts(
    alloc: Global,
    parts: &[&[u8]],
    size: usize,
) -> Result<Option<NodeId>, NoMemory>
    ensures { IfOk result (λ id. id ≡ type_in (joined parts.now)) }
{
    let [first, ..] = parts else {
        return type_of(alloc, b"");
    };
    if has_no_type(first) {
        return Ok(None);
    }
    match type_of_first(alloc, first)? {
        Some(id) => Ok(Some(id)),
        None => type_of_joined(alloc, parts, size),
    }
}

/// Appends the line of a whole message in parts under this request id. After an error a beginning of it may stand there.
#[inline(always)]
#[tactic(auto, using(crate::proofs::Captures::one_part))]
pub fn add_parts(
    alloc: Global,
    text: &mut String,
    request_id: u32,
    parts: &[&[u8]],
) -> Result<(), NoMemory>
    ensures { OnOk result (string_bytes text.new ≡ string_bytes text.old ++ message_line request_id (joined parts.now)) }
{
    match parts {
        [body] => add_message(alloc, text, request_id, body),
        _ => add_many(alloc, text, request_id, parts),
    }
}

/// The same of any number of parts.
#[tactic(auto, unfolding(crate::specs::FrameLine::message_line))]
fn add_many(
    alloc: Global,
    text: &mut String,
    request_id: u32,
    parts: &[&[u8]],
) -> Result<(), NoMemory>
    ensures { OnOk result (string_bytes text.new ≡ string_bytes text.old ++ message_line request_id (joined parts.now)) }
{
    let size = size_of(parts)?;
    let id = type_of_parts(alloc, parts, size)?;
    add_message_text(text, request_id, id.as_ref(), size)
}
