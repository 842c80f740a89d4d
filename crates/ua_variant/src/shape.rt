//! The dimensions of an array (OPC 10000-6, 5.2.2.16).

ghost use Rattle.std.specs.Prelude.{◌≡◌, ◌≤◌, ◌<◌, ◌^◌, length, min, IfOk};
ghost use Rattle.ua_value.specs.Format.{Gives, input_limit};
ghost use Rattle.ua_variant.specs.Values.{are_whole, product, is_shape, is_shape_of};
ghost use Rattle.ua_variant.specs.Spelling.{shape};

use std::alloc::Global;
use ua_value::{Array, ReadFault, Wire};

/// None is negative.
fn are_whole(lengths: &[i32]) -> bool
    ensures { result ≡ are_whole lengths.now }
{
    for length in lengths {
        if *length < 0 {
            return false;
        }
    }
    true
}

/// The product, or the greatest number where it is greater.
fn product(lengths: &[i32]) -> u64
    ensures { result ≡ min (product lengths.now) 0xffff_ffff_ffff_ffff }
{
    let mut product = 1u64;
    let mut i = lengths.len();
    while i > 0 {
        i -= 1;
        product = product.saturating_mul(u64::from(lengths[i].unsigned_abs()));
    }
    product
}

/// There are lengths, none is negative, and their product is the count.
fn is_shape(count: usize, lengths: &[i32]) -> bool
    requires { count < 2 ^ 32 }
    ensures { result ≡ is_shape count lengths.now }
{
    !lengths.is_empty() && are_whole(lengths) && product(lengths) == count as u64
}

/// These are dimensions for as many elements; null is none.
pub(crate) fn is_shape_of(count: usize, lengths: &Array<i32>) -> bool
    requires { count < 2 ^ 32 }
    ensures { result ≡ is_shape_of count lengths.now }
{
    match lengths.get() {
        None => false,
        Some(lengths) => is_shape(count, lengths),
    }
}

/// The dimensions for as many elements, where they are flagged, and what follows them.
pub(crate) fn shape_front(
    alloc: Global,
    flagged: bool,
    count: usize,
    input: &[u8],
) -> Result<(Array<i32>, &[u8]), ReadFault>
    requires short { length input.now ≤ input_limit }
    requires few { count < 2 ^ 32 }
    ensures gives { Gives (λ x. (x.0, x.1.now)) result ((shape flagged count).front input.now) }
    ensures shorter { IfOk result (λ x. length x.1.now ≤ length input.now) }
{
    if !flagged {
        return Ok((Array::null(), input));
    }
    let (lengths, rest) = Array::<i32>::read_front(alloc, input)?;
    if !is_shape_of(count, &lengths) {
        return Err(ReadFault::Refused);
    }
    Ok((lengths, rest))
}
