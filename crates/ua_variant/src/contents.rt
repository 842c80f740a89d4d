//! What variants hold.

ghost use Rattle.std.specs.Prelude.{◌≡◌, ◌≤◌, map, option_map, option_copied};
ghost use Rattle.ua_variant.specs.Values.{depth, items_of, deepest};
ghost use Rattle.ua_variant.specs.Making.{is_null, is_array, kind_in, one_in, elements_in, dimensions_in};
ghost use Rattle.ua_variant.specs.View.{kind_of, element, items_in};

use crate::variant::{Body, Element, Variant};
use ua_kind::Kind;

impl Variant {
    /// There is no value, not even a null array.
    pub fn is_null(&self) -> bool
        ensures { result ≡ is_null self.now }
    {
        matches!(&self.body, Body::Null)
    }

    /// There is an array, which may be null.
    pub fn is_array(&self) -> bool
        ensures { result ≡ is_array self.now }
    {
        match &self.body {
            Body::Null => false,
            Body::One(_) => false,
            Body::Array(_, _, _) => true,
        }
    }

    /// The kind of the value, or of the elements.
    pub fn kind(&self) -> Option<Kind>
        ensures { option_map kind_of result ≡ kind_in self.now }
    {
        match &self.body {
            Body::Null => None,
            Body::One(one) => Some(one.kind()),
            Body::Array(kind, _, _) => Some(*kind),
        }
    }

    /// The single value.
    pub fn value(&self) -> Option<&Element>
        ensures { option_map (λ e. element e.now) result ≡ one_in self.now }
    {
        match &self.body {
            Body::Null => None,
            Body::One(one) => Some(one),
            Body::Array(_, _, _) => None,
        }
    }

    /// The elements of an array that is not null.
    pub fn elements(&self) -> Option<&[Element]>
        ensures { option_map (λ es. items_of (map element es.now)) result ≡ elements_in self.now }
    {
        match &self.body {
            Body::Null => None,
            Body::One(_) => None,
            Body::Array(_, elements, _) => match &elements.list {
                None => None,
                Some(elements) => Some(elements.as_slice()),
            },
        }
    }

    /// The dimensions of an array.
    pub fn dimensions(&self) -> Option<&[i32]>
        ensures { option_copied result ≡ dimensions_in self.now }
    {
        match &self.body {
            Body::Null => None,
            Body::One(_) => None,
            Body::Array(_, _, dimensions) => dimensions.get(),
        }
    }

    /// The single value, which takes no memory. An array is dropped.
    pub fn into_value(self) -> Option<Element>
        ensures { option_map element result ≡ one_in self }
    {
        match self.body {
            Body::Null => None,
            Body::One(value) => Some(value),
            Body::Array(_, _, _) => None,
        }
    }

    /// The elements of an array that is not null, which takes no memory. A single value is dropped.
    pub fn into_elements(self) -> Option<Vec<Element>>
        ensures { option_map items_of (items_in result) ≡ elements_in self }
    {
        match self.body {
            Body::Null => None,
            Body::One(_) => None,
            Body::Array(_, mut elements, _) => elements.list.take(),
        }
    }

    /// How deep it is nested: 1 more than the deepest Variant, DataValue or DiagnosticInfo in it,
    /// and 1 where there is none; at most 100.
    pub fn depth(&self) -> u8
        ensures depth { result ≡ depth self.now }
        ensures most { result ≤ deepest }
    {
        self.levels
    }
}
