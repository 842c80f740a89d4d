//! What the server hears of what was read.

ghost use Rattle.std.specs.Prelude.{◌≡◌, ◌<◌, ◌≤◌, ◌++◌, ℕ, List, true, false, [], length, None, nat_lt, OnOk, if◌then◌else◌};
ghost use Rattle.ua_conn.specs.server.Feeding.{left_of};
ghost use Rattle.ua_link.specs.Fronts.{IsFront, wanted};
ghost use Rattle.ua_link.specs.Connections.{Hears, is_heard, ending_with};

use crate::connection::{MOST_OWED, ServerConnection};
use crate::front::Front;
use std::alloc::AllocError;
use ua_conn::{End, Server};
use ua_value::NoMemory;

/// The end to which a connection comes with its server, if any, where so many bytes wait and so many reads are left: once the
/// server heard all, the last read is the end.
fn ending_with(waits: usize, left: u32, came: Option<End>) -> Option<End>
    ensures { (waiting : List ℕ) → waits ≡ length waiting → result ≡ ending_with waiting left came }
{
    match came {
        Some(end) => Some(end),
        None if waits == 0 && left == 0 => Some(End::TurnsSpent),
        None => None,
    }
}

/// The front of what a server has that heard this piece, of those bytes that this front wanted, and goes on.
fn front_behind(server: &Server, front: Front, piece: &[u8]) -> Front
    requires { length piece.now ≤ wanted front.got front.missing }
    ensures { (rest : List ℕ) → IsFront front.header front.got front.missing rest → server.now.held.rest ≡ left_of (rest ++ piece.now) →
        IsFront result.header result.got result.missing server.now.held.rest }
{
    let mut front = front;
    match server.end_of_input() {
        End::InputEnded => Front::new(),
        _ => {
            front.add(piece);
            front
        }
    }
}

impl<'a> ServerConnection<'a> {
    /// Whether the server hears more: no end came, something waits, and not too much is owed.
    fn is_heard(&self) -> bool
        ensures { result ≡ is_heard self.now }
    {
        self.ending.is_none() && self.waiting.len() > 0 && self.owed().len() <= MOST_OWED
    }

    /// The server hears what waits, frame by frame, as long as not too much is owed.
    pub(super) fn hear(&mut self) -> Result<(), NoMemory>
        requires left { self.old.ending ≡ None → self.old.waiting ≡ [] → 0 < self.old.left }
        ensures hears { OnOk result (Hears self.old self.new) }
        ensures enough { OnOk result (is_heard self.new ≡ false) }
        ensures latest { self.new.latest ≡ self.old.latest }
        ensures begun { self.new.begun ≡ self.old.begun }
    {
        'frames: while self.is_heard() {
            self.hear_front()?;
        }
        Ok(())
    }

    /// The steady moment at which the frame began of which the server hears a part next.
    fn frame_begun(&self) -> u64
        ensures begun { self.now.ending ≡ None → result ≡ (if nat_lt 0 (length self.now.server.held.rest) then self.now.frame else self.now.latest) }
        ensures bound { result ≤ self.now.latest }
    {
        if self.front.is_begun() {
            self.frame
        } else {
            self.latest
        }
    }

    /// The server hears what waits up to the end of the header or the frame at the front, or all of it, and what it says
    /// is owed.
    fn hear_front(&mut self) -> Result<(), NoMemory>
        requires heard { is_heard self.old ≡ true }
        ensures hears { OnOk result (Hears self.old self.new) }
        ensures less { OnOk result (length self.new.waiting < length self.old.waiting) }
        ensures latest { self.new.latest ≡ self.old.latest }
        ensures begun { self.new.begun ≡ self.old.begun }
    {
        let frame = self.frame_begun();
        let n = self.front.wanted().min(self.waiting.len());
        let piece = self.waiting.front(n);
        let fed = self.server.feed(self.came, piece, &mut self.said);
        // Of a server that goes on, `feed` only appends.
        self.out = self.out.min(self.said.len() / 2);
        let Ok(fed) = fed else {
            self.ending = Some(End::NoMemory);
            return Err(AllocError);
        };
        self.front = front_behind(&self.server, self.front, piece);
        self.frame = frame;
        self.waiting.drop_front(n);
        self.ending = ending_with(self.waiting.len(), self.left, fed.end);
        Ok(())
    }
}
