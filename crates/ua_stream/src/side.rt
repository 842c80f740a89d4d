//! One direction of a connection.

ghost use Rattle.std.specs.Prelude.{◌≡◌, ◌<◌, ◌≤◌, ◌^◌, ◌⊎◌, ◌||◌, not, nat_eq, [], true, false, OnOk, OnErr, length};
ghost use Rattle.ua_stream.specs.Piece.{part_of, has_no_room, any_differs};
ghost use Rattle.ua_stream.specs.Flow.{Follows};
ghost use Rattle.ua_stream.specs.Side.{distance_of, expected_of, at_of, skip_of, no_side, with_origin, piece_of};

use crate::part::Part;
use crate::parts::{add_at, any_differs};
use std::alloc::{AllocError, Global};
use std::marker::Model;

/// One direction of a connection: its bytes in order as far as they came, and those that came before some in front of
/// them. RFC 9293, 3.4 and 3.10.7.4.
#[derive(Drop)]
pub struct Side {
    begun: bool,
    origin: u32,
    next: u64,
    ready: Vec<u8>,
    parts: Vec<Part>,
    stopped: bool,
    differs: bool,
}

impl Model for Side {
    ghost use Rattle.std.specs.Prelude.{◌≤◌, ◌^◌};
    ghost use Rattle.ua_stream.specs.Flow.{Flow};

    ghost Value = { Flow };

    ghost view = { λ a. record { begun = a.begun; origin = a.origin; next = a.next; ready = a.ready.items; parts = a.parts.items; stopped = a.stopped; differs = a.differs } };

    ghost invariant = { λ a. a.next ≤ 2 ^ 62 };
}

/// How far a sequence number is in front of another, in the circle of all sequence numbers.
fn distance_of(expected: u32, sequence: u32) -> u32
    ensures { result ≡ distance_of expected sequence }
{
    ((sequence as u64 + (1 << 32) - expected as u64) % (1 << 32)) as u32
}

/// The sequence number of the byte at a place, where the first byte has the number `origin`.
fn expected_of(origin: u32, next: u64) -> u32
    requires { next ≤ 2 ^ 62 }
    ensures { result ≡ expected_of origin next }
{
    ((origin as u64 + next) % (1 << 32)) as u32
}

/// The place of a byte at this distance from the next.
fn at_of(next: u64, distance: u32) -> u64
    requires { next ≤ 2 ^ 62 }
    ensures at { result ≡ at_of next distance }
    ensures near { result ≤ 2 ^ 63 }
    ensures ordered { next ≤ result }
{
    if distance < 1 << 31 {
        next + distance as u64
    } else {
        next
    }
}

/// How many bytes at this distance from the next came before.
fn skip_of(distance: u32) -> usize
    ensures { result ≡ skip_of distance }
{
    if distance < 1 << 31 {
        0
    } else {
        ((1 << 32) - distance as u64) as usize
    }
}

impl Side {
    /// A direction of which nothing came. It takes no memory.
    pub fn new(alloc: Global) -> Side
        ensures { result ≡ no_side }
    {
        Side {
            begun: false,
            origin: 0,
            next: 0,
            ready: Vec::new(alloc),
            parts: Vec::new(alloc),
            stopped: false,
            differs: false,
        }
    }

    /// Says the sequence number of the first byte, which is 0 until then, unless it was said before: that behind a SYN, or that of the first
    /// segment that was captured.
    pub fn begin(&mut self, sequence: u32)
        ensures { self.new ≡ with_origin self.old sequence }
    {
        if !self.begun {
            self.begun = true;
            self.origin = sequence;
        }
    }

    /// The bytes in order that were not cleared yet.
    pub fn ready(&self) -> &[u8]
        ensures { result.now ≡ self.now.ready }
    {
        &self.ready
    }

    /// Lets go of the bytes that are ready. The room is kept.
    pub fn clear(&mut self)
        ensures { self.new ≡ record self.old { ready = [] } }
    {
        self.ready.clear();
    }

    /// How many bytes came in order: the place of the next.
    pub fn next(&self) -> u64
        ensures { result ≡ self.now.next }
    {
        self.next
    }

    /// Whether bytes came behind some that did not.
    pub fn has_gap(&self) -> bool
        ensures { result ≡ not (nat_eq (length self.now.parts) 0) }
    {
        !self.parts.is_empty()
    }

    /// Whether no more bytes are taken: there was no room for what came behind a gap, or memory was refused.
    pub fn is_stopped(&self) -> bool
        ensures { result ≡ self.now.stopped }
    {
        self.stopped
    }

    /// Whether segments brought different bytes for one place while it was behind a gap. The one that came first stays.
    /// Bytes that are in order already are not compared.
    pub fn has_difference(&self) -> bool
        ensures { result ≡ self.now.differs }
    {
        self.differs
    }

    /// Takes no more bytes, and lets go of those that are kept out of order.
    fn stop(&mut self)
        ensures { self.new ≡ record self.old { parts = []; stopped = true } }
    {
        self.parts.clear();
        self.stopped = true;
    }

    /// Takes no more bytes, and gives back all memory.
    pub(crate) fn give_up(&mut self)
        ensures { self.new ≡ record self.old { ready = []; parts = []; stopped = true } }
    {
        self.stop();
        let alloc = *self.ready.allocator();
        self.ready = Vec::new(alloc);
        self.parts = Vec::new(alloc);
    }

    /// Adds bytes from a place on, which is not in front of the next in order.
    fn add_from(&mut self, alloc: Global, at: u64, bytes: &[u8]) -> Result<(), AllocError>
        requires live { self.old.stopped ≡ false }
        requires ordered { self.old.next ≤ at }
        requires near { at ≤ 2 ^ 63 }
        ensures told { self.new.differs ≡ (self.old.differs || any_differs self.old.parts (part_of at bytes.now)) }
        ensures stream { OnOk result (self.new.stopped ≡ false → Follows self.old (part_of at bytes.now) self.new) }
        ensures full { OnOk result (self.new.stopped ≡ true → has_no_room self.old.parts at (length bytes.now) ≡ true) }
        ensures kept { OnOk result (self.new.stopped ≡ true → (self.new.next ≡ self.old.next) × (self.new.ready ≡ self.old.ready)) }
        ensures failed { OnErr result (self.new.stopped ≡ true) }
        ensures begun { self.new.begun ≡ self.old.begun }
        ensures origin { self.new.origin ≡ self.old.origin }
    {
        let differs = any_differs(&self.parts, at, bytes);
        self.differs = self.differs || differs;
        match add_at(
            &mut self.parts,
            &mut self.ready,
            alloc,
            self.next,
            at,
            bytes,
        ) {
            Ok(Some(to)) => {
                self.next = to;
                Ok(())
            }
            Ok(None) => {
                self.stop();
                Ok(())
            }
            Err(error) => {
                self.stop();
                Err(error)
            }
        }
    }

    /// Adds the bytes of a segment, whose first has this sequence number. What is in order then is ready: it goes on
    /// with each byte that no segment before brought, up to the first that none brought. A byte that comes again is
    /// counted once, and the first that came stays. Sequence numbers are those of half the circle around the next.
    /// RFC 9293, 3.4.
    ///
    /// Where more than 16 MiB or 16384 segments would be kept out of order, the oldest gap is said to be one that is not
    /// filled: the direction is stopped, and takes no more.
    ///
    /// # Errors
    ///
    /// Where memory is refused: the direction is stopped then, and what is ready may have more than whole segments.
    pub fn add(&mut self, alloc: Global, sequence: u32, bytes: &[u8]) -> Result<(), AllocError>
        // The bytes in order are those of the segments from the first on, each once, up to the first gap.
        ensures stream { OnOk result (self.new.stopped ≡ false → Follows self.old (piece_of self.old sequence bytes.now) self.new) }

        // A direction is stopped for want of room alone.
        ensures full { OnOk result (self.new.stopped ≡ true → self.old.stopped ≡ true ⊎ has_no_room self.old.parts (piece_of self.old sequence bytes.now).at (length (piece_of self.old sequence bytes.now).bytes) ≡ true) }
        ensures kept { OnOk result (self.new.stopped ≡ true → (self.new.next ≡ self.old.next) × (self.new.ready ≡ self.old.ready)) }
        // That it differs from what is kept of others is told.
        ensures told { OnOk result (self.old.stopped ≡ false → 0 < length (piece_of self.old sequence bytes.now).bytes → self.new.differs ≡ (self.old.differs || any_differs self.old.parts (piece_of self.old sequence bytes.now))) }
        ensures stays { OnOk result (self.old.stopped ≡ true → self.new ≡ self.old) }
        ensures failed { OnErr result (self.new.stopped ≡ true) }
        ensures begun { self.new.begun ≡ self.old.begun }
        ensures origin { self.new.origin ≡ self.old.origin }
    {
        let distance = distance_of(expected_of(self.origin, self.next), sequence);
        let skip = skip_of(distance);
        if self.stopped {
            return Ok(());
        }
        if bytes.len() <= skip {
            return Ok(());
        }
        let at = at_of(self.next, distance);
        self.add_from(alloc, at, &bytes[skip..])
    }
}
