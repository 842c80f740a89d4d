//! Arrays of few items.

ghost use Rattle.std.specs.Prelude.{◌≡◌, ◌≤◌, Some, length};
ghost use Rattle.std.specs.List.{flat_map};
ghost use Rattle.ua_value.specs.Format.{input_limit};

use ua_value::{Array, Wire};

/// An array of few items, which takes no memory.
pub(crate) fn array_of<T: Wire>(items: Vec<T>) -> Array<T>
    requires bytes { length (flat_map T.format.canon items.items) ≤ input_limit }
    requires count { length items.items ≤ 65535 }
    ensures { result ≡ Some items.items }
{
    match Array::new(items) {
        Ok(array) => array,
        Err(_) => unreachable!(),
    }
}
