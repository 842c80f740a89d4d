//! The connection of two ends.

ghost use Rattle.std.specs.Prelude.{◌≡◌, true, [], OnOk, IfSome, IfNone};
ghost use Rattle.ua_stream.specs.declared.connection.Way.{Way};
ghost use Rattle.ua_stream.specs.Connection.{first_of, IsWay, is_opening, opening_of, is_forth, is_known, begins_new, IsTaken, KeepsEnds, no_bytes, side_of, opposite};

use crate::side::Side;
use std::alloc::{AllocError, Global};
use ua_capture::{Endpoint, Segment};

/// Which of its two ends sent something of a connection.
#[derive(Clone, Copy, Debug, PartialEq, Eq)]
pub enum Way {
    /// The end that sent the first segment.
    Forth,
    /// The other end.
    Back,
}

/// A connection: its two ends, and what each sent. RFC 9293, 3.3.
#[derive(Drop)]
pub struct Connection {
    pub(crate) first: Endpoint,
    pub(crate) other: Endpoint,
    /// The sequence number of the SYN that opened it, where that was captured.
    pub(crate) opening: Option<u32>,
    pub(crate) forth: Side,
    pub(crate) back: Side,
}

/// The sequence number of a segment's first byte: a SYN takes one of its own (RFC 9293, 3.4).
fn first_of(segment: &Segment) -> u32
    ensures { result ≡ first_of segment.now }
{
    let sequence = segment.sequence();
    if segment.is_syn() {
        ((sequence as u64 + 1) % (1 << 32)) as u32
    } else {
        sequence
    }
}

/// Whether a segment opens a connection: a SYN that acknowledges nothing.
fn is_opening(segment: &Segment) -> bool
    ensures { result ≡ is_opening segment.now }
{
    segment.is_syn() && !segment.is_acknowledge()
}

/// The sequence number by which a segment opens a connection, if it does.
fn opening_of(segment: &Segment) -> Option<u32>
    ensures { result ≡ opening_of segment.now }
{
    if is_opening(segment) {
        Some(segment.sequence())
    } else {
        None
    }
}

/// Adds the bytes of a segment, which may be the first of its direction.
fn add_segment(side: &mut Side, alloc: Global, segment: &Segment) -> Result<(), AllocError>
    ensures { OnOk result (IsTaken side.old segment.now side.new) }
{
    let sequence = first_of(segment);
    side.begin(sequence);
    side.add(alloc, sequence, segment.payload())
}

fn is_forth(way: Way) -> bool
    ensures { result ≡ is_forth way }
{
    match way {
        Way::Forth => true,
        Way::Back => false,
    }
}

/// Whether a sequence number is known to be that of the SYN that opened a connection.
fn is_known(opening: Option<u32>, sequence: u32) -> bool
    ensures { result ≡ is_known opening sequence }
{
    match opening {
        Some(known) => known == sequence,
        None => false,
    }
}

impl Connection {
    /// A connection that begins with this segment, whose bytes are not taken yet. It takes no memory.
    pub(crate) fn new(alloc: Global, segment: &Segment) -> Connection
        ensures { result ≡ no_bytes segment.now }
    {
        Connection {
            first: segment.from(),
            other: segment.to(),
            opening: opening_of(segment),
            forth: Side::new(alloc),
            back: Side::new(alloc),
        }
    }

    /// The end that sent the first segment that was captured.
    pub fn first(&self) -> Endpoint
        ensures { result ≡ self.now.first }
    {
        self.first
    }

    /// The other end.
    pub fn other(&self) -> Endpoint
        ensures { result ≡ self.now.other }
    {
        self.other
    }

    /// What an end sent.
    pub fn side(&self, way: Way) -> &Side
        ensures { result.now ≡ side_of self.now way }
    {
        match way {
            Way::Forth => &self.forth,
            Way::Back => &self.back,
        }
    }

    /// The way of what goes from one end to another, if these are its ends.
    pub(crate) fn way_of(&self, from: Endpoint, to: Endpoint) -> Option<Way>
        ensures found { IfSome result (λ way. IsWay self.now way from to) }
        ensures none { IfNone result ((way : Way) → IsWay self.now way from to → ⊥) }
    {
        if self.first == from && self.other == to {
            Some(Way::Forth)
        } else if self.first == to && self.other == from {
            Some(Way::Back)
        } else {
            None
        }
    }

    /// Whether a segment of this way opens another connection between the same ends: a SYN that is not the one that
    /// opened this.
    pub(crate) fn begins_new(&self, way: Way, segment: &Segment) -> bool
        ensures { result ≡ begins_new self.now way segment.now }
    {
        is_opening(segment) && !(is_forth(way) && is_known(self.opening, segment.sequence()))
    }

    /// Takes the bytes of a segment of this way.
    pub(crate) fn take(
        &mut self,
        alloc: Global,
        way: Way,
        segment: &Segment,
    ) -> Result<(), AllocError>
        ensures taken { OnOk result (IsTaken (side_of self.old way) segment.now (side_of self.new way)) }
        ensures untouched { side_of self.new (opposite way) ≡ side_of self.old (opposite way) }
        ensures ends { KeepsEnds self.old self.new }
    {
        match way {
            Way::Forth => add_segment(&mut self.forth, alloc, segment),
            Way::Back => add_segment(&mut self.back, alloc, segment),
        }
    }

    /// Lets go of the bytes of a way that are ready.
    pub(crate) fn clear(&mut self, way: Way)
        ensures cleared { side_of self.new way ≡ record (side_of self.old way) { ready = [] } }
        ensures untouched { side_of self.new (opposite way) ≡ side_of self.old (opposite way) }
        ensures ends { KeepsEnds self.old self.new }
    {
        match way {
            Way::Forth => self.forth.clear(),
            Way::Back => self.back.clear(),
        }
    }

    /// Takes no more bytes of a way, and gives back its memory.
    pub(crate) fn give_up(&mut self, way: Way)
        ensures given_up { side_of self.new way ≡ record (side_of self.old way) { ready = []; parts = []; stopped = true } }
        ensures untouched { side_of self.new (opposite way) ≡ side_of self.old (opposite way) }
        ensures ends { KeepsEnds self.old self.new }
    {
        match way {
            Way::Forth => self.forth.give_up(),
            Way::Back => self.back.give_up(),
        }
    }
}
