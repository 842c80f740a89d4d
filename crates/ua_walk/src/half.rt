//! A message of which parts came.

ghost use Rattle.std.specs.Prelude.{◌≡◌, ◌++◌, ◌∷◌, [], length, IfOk, OnOk};
ghost use Rattle.ua_walk.specs.Parts.{joined};
ghost use Rattle.ua_walk.specs.Told.{message_told, Hears};

use crate::parts::append;
use crate::teller::Teller;
use std::alloc::{AllocError, Global};
use std::marker::Model;
use ua_value::NoMemory;

/// The bodies of the MSG frames since the last that ended a message: of those that came before, joined; or else of those that
/// lie in the bytes that are walked, where they lie. A body without bytes is not kept.
#[derive(Drop)]
pub(crate) struct Half<'a> {
    kept: Vec<u8>,
    parts: Vec<&'a [u8]>,
    len: usize,
}

impl<'a> Model for Half<'a> {
    ghost use Rattle.std.specs.Prelude.{◌≡◌, ◌≤◌, ℕ, List, [], ◌++◌, length};
    ghost use Rattle.ua_walk.specs.Parts.{joined};

    ghost Value = { List ℕ };

    ghost view = { λ h. h.kept.items ++ joined h.parts.items };

    ghost invariant = { λ h. (1 ≤ length h.kept.items → h.parts.items ≡ []) × (h.len ≡ length (h.kept.items ++ joined h.parts.items)) };
}

impl<'a> Half<'a> {
    /// A message of which these bytes came.
    pub(crate) fn of(alloc: Global, kept: Vec<u8>) -> Half<'a>
        ensures { result ≡ kept.items }
    {
        Half {
            len: kept.len(),
            kept,
            parts: Vec::new(alloc),
        }
    }

    /// How many bytes came of it.
    pub(crate) fn len(&self) -> usize
        ensures { result ≡ length self.now }
    {
        self.len
    }

    /// Lets go of it.
    pub(crate) fn clear(&mut self)
        ensures { self.new ≡ [] }
    {
        self.kept.clear();
        self.parts.clear();
        self.len = 0;
    }

    /// Takes one more part.
    pub(crate) fn push(&mut self, body: &'a [u8]) -> Result<(), NoMemory>
        ensures { OnOk result (self.new ≡ self.old ++ body.now) }
    {
        if body.is_empty() {
            return Ok(());
        }
        let Some(len) = self.len.checked_add(body.len()) else {
            return Err(AllocError);
        };
        if self.kept.is_empty() {
            self.parts.push(body)?;
        } else {
            self.kept.extend_from_slice(body)?;
        }
        self.len = len;
        Ok(())
    }

    /// Tells it as a whole message.
    pub(crate) fn tell<T: Teller>(&self, request_id: u32, teller: &mut T) -> Result<(), NoMemory>
        ensures { OnOk result (Hears T.heard (message_told request_id self.now ∷ []) teller.old teller.new) }
    {
        if self.kept.is_empty() {
            teller.tell_message(request_id, &self.parts)
        } else {
            teller.tell_message(request_id, &[self.kept.as_slice()])
        }
    }

    /// What came of it, joined.
    pub(crate) fn into_bytes(self) -> Result<Vec<u8>, NoMemory>
        ensures { IfOk result (λ bytes. bytes.items ≡ self.entry) }
    {
        let Half { kept, parts, .. } = self;
        let mut kept = kept;
        match append(&mut kept, &parts) {
            Ok(()) => Ok(kept),
            Err(e) => Err(e),
        }
    }
}
