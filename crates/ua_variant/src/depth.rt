//! How deep values are nested, from the depths that are kept in those inside them.

ghost use Rattle.std.specs.Prelude.{◌≡◌, ◌≤◌, map, IfSome};
ghost use Rattle.ua_variant.specs.Values.{depth, items_depth, list_depth, items_of, deepest};
ghost use Rattle.ua_variant.specs.Spelling.{AreSound, IsVariant, IsDataValue};
ghost use Rattle.ua_variant.specs.View.{element, items_in, body_of, data_with};

use crate::stamps::Stamps;
use crate::variant::{Body, DataValue, Element, Variant};

/// The greatest depth of the elements.
fn levels_of(items: &[Element]) -> u8
    ensures depth { result ≡ items_depth (items_of (map element items.now)) }
    ensures most { result ≤ deepest }
    ensures values { AreSound (items_of (map element items.now)) }
{
    let mut most = 0;
    for item in items {
        let levels = item.depth();
        if levels > most {
            most = levels;
        }
    }
    most
}

/// The greatest depth of the elements, if there is a list.
pub(crate) fn levels_in(items: &Option<Vec<Element>>) -> u8
    ensures depth { result ≡ list_depth (items_in items.now) }
    ensures most { result ≤ deepest }
    ensures values { IfSome (items_in items.now) (λ es. AreSound (items_of es)) }
{
    match items {
        None => 0,
        Some(items) => levels_of(items),
    }
}

impl Variant {
    /// The Variant whose contents are given. Plain elements are not looked at.
    #[tactic(auto, using(crate::proofs::Made::plain_depth))]
    pub(crate) fn of(body: Body) -> Variant
        requires { IsVariant (body_of body) }
        ensures { result ≡ body_of body }
    {
        let inside = match &body {
            Body::Null => 0,
            Body::One(one) => one.depth(),
            Body::Array(kind, items, _) => {
                if kind.is_plain() {
                    0
                } else {
                    levels_in(&items.list)
                }
            }
        };
        Variant {
            levels: inside + 1,
            body,
        }
    }
}

impl DataValue {
    /// The DataValue whose parts are given.
    pub(crate) fn of(value: Option<Variant>, stamps: Stamps) -> DataValue
        requires { IsDataValue (data_with value stamps) }
        ensures { result ≡ data_with value stamps }
    {
        let inside = match &value {
            None => 0,
            Some(value) => value.levels,
        };
        DataValue {
            levels: inside + 1,
            stamps,
            value,
        }
    }
}
