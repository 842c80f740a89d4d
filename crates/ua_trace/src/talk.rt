//! A connection.

ghost use Rattle.std.specs.Prelude.{◌≡◌, ◌≤◌, ◌⊎◌, OnOk};
ghost use Rattle.ua_trace.specs.declared.choice.Shown.TheVariants.{Unknown, Yes};
ghost use Rattle.ua_trace.specs.declared.lane.Opening.TheVariants.{Hello};

use crate::choice::Shown;
use crate::lane::{Lane, Opening};
use crate::place::{Form, Place, add_first};
use std::alloc::Global;
use ua_stream::{Connection, Side, Way};
use ua_value::NoMemory;

/// The most bytes of both ways that are taken in until the first bytes of one tell whether a connection is shown: those of
/// the longest frame. The lines of a frame have at most sixteen times its bytes, in any form, so at most 16 MiB are held.
const MOST_UNJUDGED: usize = 1_048_576;

/// A connection, as far as it is shown.
#[derive(Drop)]
pub(crate) struct Talk {
    shown: Shown,
    /// The moment of its first packet.
    began: Option<u64>,
    /// How many bytes of both ways came in order while it was not known whether it is shown.
    came: usize,
    /// Its lines, while it is not known whether they are shown.
    held: String,
    forth: Lane,
    back: Lane,
}

/// Whether a connection is shown whose ways begin so, of which so many bytes came. In which form lines are written does not
/// count, so each form shows the same connections.
fn judged(forth: Opening, back: Opening, came: usize) -> Shown
    ensures hello { forth ≡ Hello ⊎ back ≡ Hello → result ≡ Yes }
    ensures other { result ≡ Yes → forth ≡ Hello ⊎ back ≡ Hello }
    ensures bound { result ≡ Unknown → came ≤ 1048576 }
{
    match (forth, back) {
        (Opening::Hello, _) | (_, Opening::Hello) => Shown::Yes,
        (Opening::Other, Opening::Other) => Shown::No,
        _ if came > MOST_UNJUDGED => Shown::No,
        _ => Shown::Unknown,
    }
}

impl Talk {
    /// A connection of which nothing was taken. It takes no memory.
    pub(crate) fn new(alloc: Global, shown: Shown, began: Option<u64>) -> Talk {
        Talk {
            shown,
            began,
            came: 0,
            held: String::new(alloc),
            forth: Lane::new(alloc),
            back: Lane::new(alloc),
        }
    }

    /// Whether nothing more of a way is shown.
    pub(crate) fn has_ended(&self, way: Way) -> bool {
        self.shown == Shown::No || self.lane(way).has_ended()
    }

    /// Whether something that was shown was no whole frame.
    pub(crate) fn is_broken(&self) -> bool {
        self.shown == Shown::Yes && (self.forth.is_broken() || self.back.is_broken())
    }

    fn lane(&self, way: Way) -> &Lane {
        match way {
            Way::Forth => &self.forth,
            Way::Back => &self.back,
        }
    }

    /// Takes the bytes that a packet of a way made ready, and adds lines to the text, or holds them.
    pub(crate) fn take(
        &mut self,
        alloc: Global,
        place: Place,
        connection: &Connection,
        text: &mut String,
    ) -> Result<(), NoMemory>
        ensures bound { OnOk result (self.new.shown ≡ Unknown → self.new.came ≤ 1048576) }
    {
        if self.shown == Shown::No {
            return Ok(());
        }
        let side = connection.side(place.way);
        self.bring(place, side);
        if self.shown == Shown::Unknown {
            self.came = self.came.saturating_add(side.ready().len());
            self.decide(alloc, place, connection, text)?;
        }
        match (self.shown, place.way) {
            (Shown::No, _) => Ok(()),
            (Shown::Yes, Way::Forth) => self.forth.take(alloc, place, side, text),
            (Shown::Yes, Way::Back) => self.back.take(alloc, place, side, text),
            (Shown::Unknown, Way::Forth) => self.forth.take(alloc, place, side, &mut self.held),
            (Shown::Unknown, Way::Back) => self.back.take(alloc, place, side, &mut self.held),
        }
    }

    /// Notes the moment of a packet of a way, and what the way begins with.
    fn bring(&mut self, place: Place, side: &Side) {
        match place.way {
            Way::Forth => self.forth.bring(place.moment, side),
            Way::Back => self.back.bring(place.moment, side),
        }
    }

    /// Shows what is held, or lets go of it, where its ways tell by now.
    fn decide(
        &mut self,
        alloc: Global,
        place: Place,
        connection: &Connection,
        text: &mut String,
    ) -> Result<(), NoMemory>
        ensures bound { OnOk result (self.new.shown ≡ Unknown → self.new.came ≤ 1048576) }
    {
        self.shown = judged(self.forth.opening(), self.back.opening(), self.came);
        match self.shown {
            Shown::Unknown => {}
            Shown::Yes => {
                add_first(
                    alloc,
                    text,
                    place.form,
                    place.number,
                    self.began,
                    connection,
                )?;
                text.push_str(self.held.as_str())?;
                self.held = String::new(alloc);
            }
            Shown::No => {
                self.held = String::new(alloc);
                self.forth.give_up();
                self.back.give_up();
            }
        }
        Ok(())
    }

    /// Adds the lines of the end of its ways, if it is shown.
    pub(crate) fn end(
        &mut self,
        alloc: Global,
        form: Form,
        number: usize,
        connection: &Connection,
        text: &mut String,
    ) -> Result<(), NoMemory> {
        if self.shown != Shown::Yes {
            return Ok(());
        }
        let forth = Place {
            form,
            number,
            way: Way::Forth,
            moment: self.forth.moment(),
        };
        self.forth
            .end(alloc, forth, connection.side(Way::Forth), text)?;
        let back = Place {
            form,
            number,
            way: Way::Back,
            moment: self.back.moment(),
        };
        self.back.end(alloc, back, connection.side(Way::Back), text)
    }
}
