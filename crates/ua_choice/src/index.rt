//! Texts of a list of a request, each once.

ghost use Rattle.std.specs.Prelude.{◌≡◌, ℕ, List, Option, IfOk, OnOk, false};
ghost use Rattle.ua_choice.specs.Choosing.{is_among};
ghost use Rattle.ua_choice.specs.Index.{is_indexed, IndexesOne};

use std::alloc::Global;
use std::collections::BTreeSet;
use ua_value::{NoMemory, UaString};

/// How long a list of a request may be that is walked through each time.
pub(crate) const WALKED: usize = 16;

/// Texts, each once, by which one is found with no walk over all of them.
#[derive(Drop)]
pub(crate) struct Index {
    has_null: bool,
    texts: BTreeSet<String>,
}

impl Index {
    /// That of no text.
    pub(crate) fn new(alloc: Global) -> Index
        ensures { (text : Option (List ℕ)) → is_indexed text result ≡ false }
    {
        Index {
            has_null: false,
            texts: BTreeSet::new(alloc),
        }
    }

    /// That of these texts.
    ///
    /// # Errors
    ///
    /// `NoMemory` where the room for their copies is refused.
    pub(crate) fn of(alloc: Global, texts: &[UaString]) -> Result<Index, NoMemory>
        ensures { IfOk result (λ i. (text : Option (List ℕ)) → is_indexed text i ≡ is_among text texts.now) }
    {
        let mut index = Index::new(alloc);
        for text in texts {
            index.add(alloc, text)?;
        }
        Ok(index)
    }

    /// Adds a text.
    pub(crate) fn add(&mut self, alloc: Global, text: &UaString) -> Result<(), NoMemory>
        ensures { OnOk result (IndexesOne text.now self.old self.new) }
    {
        match text.get() {
            None => self.has_null = true,
            Some(text) => {
                let text = String::from_str(alloc, text)?;
                self.texts.insert(text)?;
            }
        }
        Ok(())
    }

    /// Whether it has the text.
    pub(crate) fn has(&self, text: &UaString) -> bool
        ensures { result ≡ is_indexed text.now self.now }
    {
        match text.get() {
            None => self.has_null,
            Some(text) => self.texts.contains(text),
        }
    }
}
