//! What a filter says of many texts, of which most are the same few.

ghost use Rattle.std.specs.Prelude.{◌≡◌, IfSome};
ghost use Rattle.ua_choice.specs.Choosing.{is_asked};

use crate::choosing::{is_one_of, is_same};
use std::marker::Model;
use ua_value::{Array, UaString};

/// Over how many texts a verdict is remembered: more transports than servers offer.
const REMEMBERED: usize = 16;

/// A filter that remembers what it said of the last sixteen different texts, so that one which comes again costs no
/// search, however long the filter is.
#[derive(Drop)]
pub struct Verdicts<'a> {
    filter: &'a Array<UaString>,
    given: [Option<(&'a UaString, bool)>; 16],
    next: usize,
}

impl<'a> Model for Verdicts<'a> {
    ghost use Rattle.std.specs.Prelude.{◌≡◌, ◌<◌, IfSome, List, Option, ℕ, length};
    ghost use Rattle.std.specs.List.{AllByRecursion};
    ghost use Rattle.ua_choice.specs.Choosing.{is_asked};

    ghost Value = { Option (List (Option (List ℕ))) };

    ghost view = { λ v. v.filter.now };

    ghost invariant = { λ v. (v.next < 16) × (length v.given ≡ 16) × AllByRecursion (λ g. IfSome g (λ j. j.1 ≡ is_asked v.filter.now j.0.now)) v.given };
}

impl<'a> Verdicts<'a> {
    /// Those of a filter, which said nothing yet. It takes no memory.
    pub fn new(filter: &'a Array<UaString>) -> Verdicts<'a>
        ensures { result ≡ filter.now }
    {
        Verdicts {
            filter,
            given: [None; REMEMBERED],
            next: 0,
        }
    }

    /// What was said of the text, if that is remembered.
    fn remembered(&self, text: &UaString) -> Option<bool>
        ensures { IfSome result (λ asked. asked ≡ is_asked self.now text.now) }
    {
        for given in &self.given {
            if let Some((other, asked)) = given {
                if is_same(text, other) {
                    return Some(*asked);
                }
            }
        }
        None
    }

    /// Remembers what was said of the text, in place of the verdict that was given first.
    fn remember(&mut self, text: &'a UaString, asked: bool)
        requires { asked ≡ is_asked self.old text.now }
        ensures { self.new ≡ self.old }
    {
        let next = self.next;
        let given = &mut self.given[..];
        given[next] = Some((text, asked));
        self.next = (next + 1) % REMEMBERED;
    }

    /// Whether the filter asks for what has this text: an absent or empty filter asks for all.
    pub fn asks_for(&mut self, text: &'a UaString) -> bool
        ensures asked { result ≡ is_asked self.old text.now }
        ensures filter { self.new ≡ self.old }
    {
        let texts = match self.filter.get() {
            None => return true,
            Some([]) => return true,
            Some(texts) => texts,
        };
        if let Some(asked) = self.remembered(text) {
            return asked;
        }
        let asked = is_one_of(text, texts);
        self.remember(text, asked);
        asked
    }
}
