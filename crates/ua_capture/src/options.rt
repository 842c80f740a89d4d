//! The options at the end of a block of pcapng (draft-ietf-opsawg-pcapng, 3.5).

ghost use Rattle.std.specs.Prelude.{◌≡◌, ◌+◌, ◌≤◌, length, IfSome};
ghost use Rattle.ua_capture.specs.Options.{padded, option_of};

use crate::number::{Order, ordered_16};

/// Where the value of an option stands.
#[derive(Clone, Copy, Debug, PartialEq, Eq)]
pub(crate) struct Value {
    pub(crate) at: usize,
    pub(crate) length: u16,
}

/// A length with the padding to a multiple of four.
fn padded(length: u16) -> usize
    ensures padded { result ≡ padded length }
    ensures enough { length ≤ result }
{
    (length as usize + 3) / 4 * 4
}

/// Where the first option of this code has its value, among the first `most` options of those between two places.
#[tactic(auto, unfolding(crate::specs::Options::option_of))]
pub(crate) fn option_in(
    order: Order,
    bytes: &[u8],
    code: u16,
    at: usize,
    end: usize,
    most: u8,
) -> Option<Value>
    requires there { end ≤ length bytes.now }
    requires begins { at ≤ end }
    ensures value { result ≡ option_of most order bytes.now code at end }
    ensures within { IfSome result (λ value. value.at + value.length ≤ end) }
{
    if most == 0 || end - at < 4 {
        return None;
    }
    let kind = ordered_16(order, bytes, at);
    let length = ordered_16(order, bytes, at + 2);
    if kind == 0 {
        return None;
    }
    let next = 4 + padded(length);
    if end - at < next {
        return None;
    }
    if kind == code {
        return Some(Value { at: at + 4, length });
    }
    option_in(order, bytes, code, at + next, end, most - 1)
}
