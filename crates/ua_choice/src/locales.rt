//! The locales that a request wants, where many applications are asked for their names (OPC 10000-4, 5.4).

ghost use Rattle.std.specs.Prelude.{◌≡◌, IfOk, IfSome, OnOk};
ghost use Rattle.ua_choice.specs.Locales.{listed, ArePlacesAmong, AreRanksOf, KeepsFirst};

use crate::index::{Index, WALKED};
use crate::names::Names;
use crate::places::Places;
use std::alloc::Global;
use std::marker::Model;
use ua_value::{Array, NoMemory, UaString};

/// The locales of the names of some applications, each once.
#[derive(Drop)]
pub struct KnownLocales {
    index: Index,
}

impl KnownLocales {
    /// Those of none.
    pub fn new(alloc: Global) -> KnownLocales {
        KnownLocales {
            index: Index::new(alloc),
        }
    }

    /// Adds those of these names.
    ///
    /// # Errors
    ///
    /// `NoMemory` where the room for their copies is refused; some may have been added.
    pub fn add(&mut self, alloc: Global, names: &Names) -> Result<(), NoMemory> {
        for name in names.all() {
            if !self.index.has(&name.locale) {
                self.index.add(alloc, &name.locale)?;
            }
        }
        Ok(())
    }
}

/// Of each locale that is known the place at which it first stands among those that are wanted.
#[derive(Drop)]
pub(crate) struct Ranks {
    pub(crate) known: Index,
    pub(crate) places: Places,
}

impl Ranks {
    /// Those among the wanted ones.
    ///
    /// # Errors
    ///
    /// `NoMemory` where the room for copies of the locales that are known and wanted is refused.
    fn of(alloc: Global, wanted: &[UaString], known: KnownLocales) -> Result<Ranks, NoMemory>
        ensures { IfOk result (AreRanksOf wanted.now) }
    {
        match places_among(alloc, wanted, &known.index) {
            Ok(places) => Ok(Ranks {
                known: known.index,
                places,
            }),
            Err(e) => Err(e),
        }
    }
}

/// The places at which the locales that are known first stand among those that are wanted.
fn places_among(alloc: Global, wanted: &[UaString], known: &Index) -> Result<Places, NoMemory>
    ensures { IfOk result (ArePlacesAmong wanted.now known.now) }
{
    let mut places = Places::new(alloc);
    for place in 0..wanted.len() {
        keep_first(alloc, &mut places, known, &wanted[place], place)?;
    }
    Ok(places)
}

/// Keeps the place for the locale, if that is known and has none.
fn keep_first(
    alloc: Global,
    places: &mut Places,
    known: &Index,
    locale: &UaString,
    place: usize,
) -> Result<(), NoMemory>
    ensures { OnOk result (KeepsFirst locale.now place known.now places.old places.new) }
{
    if known.has(locale) && places.get(locale).is_none() {
        places.keep(alloc, locale, place)?;
    }
    Ok(())
}

/// The locales that a request wants, the dearest first. Where many applications are asked for their names, those that
/// are known are looked up in the request once, so that an application costs no walk over them.
#[derive(Drop)]
pub struct Locales<'a> {
    pub(crate) wanted: &'a Array<UaString>,
    pub(crate) ranks: Option<Ranks>,
}

impl<'a> Model for Locales<'a> {
    ghost use Rattle.std.specs.Prelude.{IfSome, List, Option, ℕ};
    ghost use Rattle.ua_choice.specs.Locales.{listed, AreRanksOf};

    ghost Value = { Option (List (Option (List ℕ))) };

    ghost view = { λ l. l.wanted.now };

    ghost invariant = { λ l. IfSome l.ranks (AreRanksOf (listed l.wanted.now)) };
}

impl<'a> Locales<'a> {
    /// Those of a request, which are walked through for each application. It takes no memory.
    pub fn new(wanted: &'a Array<UaString>) -> Locales<'a>
        ensures { result ≡ wanted.now }
    {
        Locales {
            wanted,
            ranks: None,
        }
    }

    /// Those of a request, among which the known ones are looked up once. A name in a locale that is not known costs a
    /// walk, and so does each where the room for copies of those that are known and wanted is refused.
    pub fn looked_up(alloc: Global, wanted: &'a Array<UaString>, known: KnownLocales) -> Locales<'a>
        ensures { result ≡ wanted.now }
    {
        Locales {
            wanted,
            ranks: ranks_of(alloc, wanted, known),
        }
    }

    /// Whether a request wants so many, over sixteen, that they are looked up once where several applications are asked.
    pub fn are_many(wanted: &Array<UaString>) -> bool {
        match wanted.get() {
            Some(wanted) => wanted.len() > WALKED,
            None => false,
        }
    }
}

/// The places of the known ones, if there is memory for them.
fn ranks_of(alloc: Global, wanted: &Array<UaString>, known: KnownLocales) -> Option<Ranks>
    ensures { IfSome result (AreRanksOf (listed wanted.now)) }
{
    match wanted.get() {
        Some(wanted) => Ranks::of(alloc, wanted, known).ok(),
        None => None,
    }
}
