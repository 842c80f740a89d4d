//! What a filter says of many texts that differ.

ghost use Rattle.std.specs.Prelude.{◌≡◌, ℕ, List, Option, IfSome};
ghost use Rattle.ua_choice.specs.Choosing.{is_asked};
ghost use Rattle.ua_choice.specs.Index.{is_indexed};

use crate::choosing::asks_for;
use crate::index::{Index, WALKED};
use std::alloc::Global;
use std::marker::Model;
use ua_value::{Array, UaString};

/// A filter that is asked of many texts. A long one has an index, where there is memory for it, so that a text costs no
/// walk over the filter.
#[derive(Drop)]
pub struct Filter<'a> {
    filter: &'a Array<UaString>,
    index: Option<Index>,
}

impl<'a> Model for Filter<'a> {
    ghost use Rattle.std.specs.Prelude.{◌≡◌, IfSome, List, Option, ℕ};
    ghost use Rattle.ua_choice.specs.Choosing.{is_asked};
    ghost use Rattle.ua_choice.specs.Index.{is_indexed};

    ghost Value = { Option (List (Option (List ℕ))) };

    ghost view = { λ f. f.filter.now };

    ghost invariant = { λ f. IfSome f.index (λ i. (text : Option (List ℕ)) → is_indexed text i ≡ is_asked f.filter.now text) };
}

impl<'a> Filter<'a> {
    /// That of a request. A filter of at most sixteen texts takes no memory, and a longer one a copy of its texts; where
    /// the room for that is refused it is walked through for each text.
    pub fn new(alloc: Global, filter: &'a Array<UaString>) -> Filter<'a>
        ensures { result ≡ filter.now }
    {
        Filter {
            filter,
            index: index_of(alloc, filter),
        }
    }

    /// Whether it asks for what has this text: an absent or empty filter asks for all.
    pub fn asks_for(&self, text: &UaString) -> bool
        ensures { result ≡ is_asked self.now text.now }
    {
        match &self.index {
            Some(index) => index.has(text),
            None => asks_for(self.filter, text),
        }
    }
}

/// The index of a long filter, if there is memory for it.
fn index_of(alloc: Global, filter: &Array<UaString>) -> Option<Index>
    ensures { IfSome result (λ i. (text : Option (List ℕ)) → is_indexed text i ≡ is_asked filter.now text) }
{
    match filter.get() {
        Some(texts) if texts.len() > WALKED => Index::of(alloc, texts).ok(),
        _ => None,
    }
}
