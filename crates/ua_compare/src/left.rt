//! What is left of two lists of descriptions where those that are the same are taken away in pairs.

ghost use Rattle.std.specs.Prelude.{◌≡◌, ◌<◌, ◌↔◌, [], true, Bool, length, slice_index_or, All, IfOk, IfNone, IfSome};
ghost use Rattle.ua_compare.specs.Offer.{times, times_lent, HasAsOften};

use std::alloc::Global;
use ua_value::NoMemory;

/// What stands in the one list alone, and what in the other alone.
#[derive(Drop)]
pub(crate) struct Left<'a, D> {
    pub(crate) missing: Vec<&'a D>,
    pub(crate) extra: Vec<&'a D>,
}

/// All of them, lent.
fn all_of<'a, D>(alloc: Global, items: &'a [D]) -> Result<Vec<&'a D>, NoMemory>
    ensures { IfOk result (λ all. (same : D → D → Bool) (one : D) → times_lent same one all.items ≡ times same one items.now) }
{
    let mut all = Vec::with_capacity(alloc, items.len())?;
    for item in items {
        all.push(item)?;
    }
    Ok(all)
}

/// Where the first one stands that is the same.
fn place_of<D: Eq>(one: &D, among: &[&D]) -> Option<usize>
    ensures none { IfNone result (times_lent D.eq one.now among.now ≡ 0) }
    ensures within { IfSome result (λ i. i < length among.now) }
    ensures same { IfSome result (λ i. (other : _) → D.eq one.now (slice_index_or among.now i other).now ≡ true) }
{
    for (i, other) in among.iter().enumerate() {
        if one == *other {
            return Some(i);
        }
    }
    None
}

/// What is left of both where each of the wanted is taken away together with the first of the found that is the same.
pub(crate) fn left_of<'a, D: Eq>(
    alloc: Global,
    wanted: &'a [D],
    found: &'a [D],
) -> Result<Left<'a, D>, NoMemory>
    ensures none { IfOk result (λ left. ((left.missing.items ≡ []) × (left.extra.items ≡ [])) ↔ HasAsOften D.eq wanted.now found.now) }
    ensures apart { IfOk result (λ left. All (λ m. times_lent D.eq m.now left.extra.items ≡ 0) left.missing.items) }
{
    let mut missing = Vec::new(alloc);
    let mut extra = all_of(alloc, found)?;
    for one in wanted {
        match place_of(one, extra.as_slice()) {
            Some(place) => {
                extra.remove(place);
            }
            None => missing.push(one)?,
        }
    }
    Ok(Left { missing, extra })
}
