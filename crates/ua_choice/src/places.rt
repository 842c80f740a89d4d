//! Where the first of each locale stands (OPC 10000-4, 5.4).

ghost use Rattle.std.specs.Prelude.{◌≡◌, ℕ, List, Option, None, IfOk, OnOk};
ghost use Rattle.ua_choice.specs.Places.{place_in, ArePlacesOf, KeepsOne};

use std::alloc::Global;
use std::collections::BTreeMap;
use ua_value::{LocalizedText, NoMemory, UaString};

/// Of each locale a place, by which the first name in it is found with no walk over all of them.
#[derive(Drop)]
pub(crate) struct Places {
    of_null: Option<usize>,
    of_texts: BTreeMap<String, usize>,
}

impl Places {
    /// None.
    pub(crate) fn new(alloc: Global) -> Places
        ensures { (locale : Option (List ℕ)) → place_in locale result ≡ None }
    {
        Places {
            of_null: None,
            of_texts: BTreeMap::new(alloc),
        }
    }

    /// Those of these names.
    ///
    /// # Errors
    ///
    /// `NoMemory` where the room for the copies of the locales is refused.
    pub(crate) fn of(alloc: Global, names: &[LocalizedText]) -> Result<Places, NoMemory>
        ensures { IfOk result (ArePlacesOf names.now) }
    {
        let mut places = Places::new(alloc);
        // backward, so that the first name of a locale stays
        for place in (0..names.len()).rev() {
            places.keep(alloc, &names[place].locale, place)?;
        }
        Ok(places)
    }

    /// Keeps the place for the locale, instead of one that was kept for it.
    pub(crate) fn keep(
        &mut self,
        alloc: Global,
        locale: &UaString,
        place: usize,
    ) -> Result<(), NoMemory>
        ensures { OnOk result (KeepsOne locale.now place self.old self.new) }
    {
        match locale.get() {
            None => self.of_null = Some(place),
            Some(text) => {
                let text = String::from_str(alloc, text)?;
                self.of_texts.insert(text, place)?;
            }
        }
        Ok(())
    }

    /// The place that is kept for the locale.
    pub(crate) fn get(&self, locale: &UaString) -> Option<usize>
        ensures { result ≡ place_in locale.now self.now }
    {
        match locale.get() {
            None => self.of_null,
            Some(text) => self.of_texts.get(text).copied(),
        }
    }
}
