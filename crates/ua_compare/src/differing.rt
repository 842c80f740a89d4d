//! The lines of what is left of two lists.

ghost use Rattle.std.specs.Prelude.{◌≡◌, ◌≤◌, ◌<◌, ◌+◌, ◌↔◌, length, true, false, All, IfSome, OnOk, IfOk, IsTrue, string_bytes, slice_index_or};
ghost use Rattle.ua_compare.specs.Offer.{times_lent, IsSameOffer};
ghost use Rattle.ua_compare.specs.Said.{Says};

use crate::described::Described;
use crate::left::{Left, left_of};
use std::alloc::Global;
use ua_value::NoMemory;

/// Appends the line of one that stands in one list alone, with `before` at its front.
fn add_alone<D: Described>(
    before: &str,
    word: &str,
    one: &D,
    text: &mut String,
) -> Result<(), NoMemory>
    ensures { OnOk result (length (string_bytes text.old) < length (string_bytes text.new)) }
{
    text.push_str(before)?;
    text.push_str(word)?;
    one.add_name(text)?;
    text.push('\n')
}

/// What the lines of one begin with whose fields differ.
fn start_of<D: Described>(alloc: Global, before: &str, one: &D) -> Result<String, NoMemory> {
    let mut start = String::from_str(alloc, before)?;
    one.add_name(&mut start)?;
    start.push(' ')?;
    Ok(start)
}

/// Appends the lines of two that have the same name.
fn add_pair<D: Described>(
    alloc: Global,
    before: &str,
    wanted: &D,
    found: &D,
    text: &mut String,
) -> Result<(), NoMemory>
    requires named { D.named wanted.now found.now ≡ true }
    requires other { D.eq wanted.now found.now ≡ false }
    ensures { OnOk result (length (string_bytes text.old) < length (string_bytes text.new)) }
{
    let start = start_of(alloc, before, wanted)?;
    wanted.add_fields(alloc, found, start.as_str(), text)
}

/// Where the first one stands that has its name.
fn place_named<D: Described>(one: &D, among: &[&D]) -> Option<usize>
    ensures within { IfSome result (λ i. i < length among.now) }
    ensures named { IfSome result (λ i. (other : _) → D.named one.now (slice_index_or among.now i other).now ≡ true) }
{
    for (i, other) in among.iter().enumerate() {
        if one.is_named_as(*other) {
            return Some(i);
        }
    }
    None
}

/// Appends the lines of those that are wanted: beside the first of the rest that has its name, which is taken away, or
/// alone.
fn add_missing<D: Described>(
    alloc: Global,
    before: &str,
    missing: &[&D],
    extra: &mut Vec<&D>,
    text: &mut String,
) -> Result<(), NoMemory>
    requires { All (λ m. times_lent D.eq m.now extra.old.items ≡ 0) missing.now }
    ensures text { OnOk result (length (string_bytes text.old) + length missing.now ≤ length (string_bytes text.new)) }
    ensures extra { length extra.old.items ≤ length extra.new.items + length missing.now }
{
    for one in missing {
        match place_named(*one, extra.as_slice()) {
            Some(place) => {
                let other = extra.remove(place);
                add_pair(alloc, before, *one, other, text)?;
            }
            None => add_alone(before, "missing ", *one, text)?,
        }
    }
    Ok(())
}

/// Appends the lines of those that nobody wants.
fn add_extra<D: Described>(before: &str, extra: &[&D], text: &mut String) -> Result<(), NoMemory>
    ensures { OnOk result (length (string_bytes text.old) + length extra.now ≤ length (string_bytes text.new)) }
{
    for one in extra {
        add_alone(before, "extra ", *one, text)?;
    }
    Ok(())
}

/// Appends the lines of what is left of two lists.
fn add_left<D: Described>(
    alloc: Global,
    before: &str,
    left: Left<'_, D>,
    text: &mut String,
) -> Result<(), NoMemory>
    requires apart { All (λ m. times_lent D.eq m.now left.extra.items ≡ 0) left.missing.items }
    requires some { 0 < length left.missing.items + length left.extra.items }
    ensures { OnOk result (length (string_bytes text.old) < length (string_bytes text.new)) }
{
    let Left { missing, mut extra } = left;
    add_missing(alloc, before, missing.as_slice(), &mut extra, text)?;
    add_extra(before, extra.as_slice(), text)
}

/// Appends a line for each difference of two lists, each with `before` at its front, and says whether there is none.
pub(crate) fn add_differences<D: Described>(
    alloc: Global,
    before: &str,
    wanted: &[D],
    found: &[D],
    text: &mut String,
) -> Result<bool, NoMemory>
    ensures same { IfOk result (λ same. IsTrue same ↔ IsSameOffer wanted.now found.now) }
    ensures said { IfOk result (λ same. Says same (string_bytes text.old) (string_bytes text.new)) }
{
    let left = left_of(alloc, wanted, found)?;
    if left.missing.is_empty() && left.extra.is_empty() {
        return Ok(true);
    }
    add_left(alloc, before, left, text)?;
    Ok(false)
}
