//! One way of a connection that is shown.

use crate::place::{Note, Place};
use std::alloc::Global;
use ua_stream::Side;
use ua_value::NoMemory;
use ua_walk::Walker;

/// What the bytes of a way begin with.
#[derive(Clone, Copy, PartialEq, Eq)]
pub(crate) enum Opening {
    /// Fewer than four came.
    Unknown,
    /// The type and the flag of a HEL or an RHE (OPC 10000-6, 7.1.2.2).
    Hello,
    /// Something else.
    Other,
}

/// One way of a connection.
#[derive(Drop)]
pub(crate) struct Lane {
    walker: Walker,
    opening: Opening,
    /// The moment of the last packet.
    moment: Option<u64>,
    /// Whether it was said that segments differ.
    differs: bool,
    /// Whether something of it was no whole frame.
    is_broken: bool,
}

/// The byte at a place of these, and of those behind them.
fn byte_at(bytes: &[u8], behind: &[u8], at: usize) -> Option<u8> {
    match at.checked_sub(bytes.len()) {
        Some(at) => behind.get(at).copied(),
        None => bytes.get(at).copied(),
    }
}

/// What these bytes, and those behind them, say that a way begins with, if they are its first.
fn opening_of(bytes: &[u8], behind: &[u8]) -> Opening {
    let first = (
        byte_at(bytes, behind, 0),
        byte_at(bytes, behind, 1),
        byte_at(bytes, behind, 2),
        byte_at(bytes, behind, 3),
    );
    match first {
        (Some(b'H'), Some(b'E'), Some(b'L'), Some(b'F')) => Opening::Hello,
        (Some(b'R'), Some(b'H'), Some(b'E'), Some(b'F')) => Opening::Hello,
        (_, _, _, Some(_)) => Opening::Other,
        _ => Opening::Unknown,
    }
}

impl Lane {
    /// A way of which nothing came. It takes no memory.
    pub(crate) fn new(alloc: Global) -> Lane {
        Lane {
            walker: Walker::new(alloc),
            opening: Opening::Unknown,
            moment: None,
            differs: false,
            is_broken: false,
        }
    }

    pub(crate) fn opening(&self) -> Opening {
        self.opening
    }

    /// The moment of the last packet.
    pub(crate) fn moment(&self) -> Option<u64> {
        self.moment
    }

    /// Whether no more of it is shown.
    pub(crate) fn has_ended(&self) -> bool {
        self.walker.has_ended()
    }

    /// Whether something of it was no whole frame.
    pub(crate) fn is_broken(&self) -> bool {
        self.is_broken
    }

    /// The place behind the bytes that came in order.
    fn next(&self) -> usize {
        self.walker
            .offset()
            .saturating_add(self.walker.rest().len())
    }

    /// Shows no more, and gives back all memory.
    pub(crate) fn give_up(&mut self) {
        self.walker.give_up();
    }

    /// Says once that segments differ, where they do: at the first byte that the packet made ready, or behind it.
    fn add_difference(
        &mut self,
        alloc: Global,
        place: Place,
        side: &Side,
        text: &mut String,
    ) -> Result<(), NoMemory> {
        if side.has_difference() && !self.differs {
            self.differs = true;
            place.add_note(alloc, text, self.next(), Note::Differs)?;
        }
        Ok(())
    }

    /// Notes the moment of a packet, and what the way begins with, by the bytes that the packet made ready.
    pub(crate) fn bring(&mut self, moment: Option<u64>, side: &Side) {
        if self.walker.has_ended() {
            return;
        }
        self.moment = moment;
        if self.opening == Opening::Unknown {
            self.opening = opening_of(self.walker.rest(), side.ready());
        }
    }

    /// Takes the bytes that a packet made ready, and adds the lines of what they complete; where the direction was stopped,
    /// those of its end.
    pub(crate) fn take(
        &mut self,
        alloc: Global,
        place: Place,
        side: &Side,
        text: &mut String,
    ) -> Result<(), NoMemory> {
        if self.walker.has_ended() {
            return Ok(());
        }
        self.add_difference(alloc, place, side, text)?;
        place.feed(alloc, &mut self.walker, side.ready(), text)?;
        if self.walker.has_ended() {
            self.is_broken = true;
        }
        if side.is_stopped() {
            self.end(alloc, place, side, text)?;
        }
        Ok(())
    }

    /// Adds the lines of its end: of bytes that are less than a frame, and of a gap.
    pub(crate) fn end(
        &mut self,
        alloc: Global,
        place: Place,
        side: &Side,
        text: &mut String,
    ) -> Result<(), NoMemory> {
        if self.walker.has_ended() {
            return Ok(());
        }
        let next = self.next();
        if !place.end(alloc, &mut self.walker, text)? {
            self.is_broken = true;
        }
        if side.has_gap() || side.is_stopped() {
            self.is_broken = true;
            place.add_note(alloc, text, next, Note::Gap)?;
        }
        Ok(())
    }
}
