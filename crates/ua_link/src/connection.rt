//! One connection of a server that has several: what came is taken and what fits is sent, and no call waits.

ghost use Rattle.std.specs.Prelude.{◌≡◌, ◌+◌, ◌-◌, ◌<◌, ◌≤◌, ◌^◌, ℕ, List, true, false, max, [], ◌∷◌, length, None, Some, IfOk, IfSome, pos, if◌then◌else◌};
ghost use Rattle.ua_frame.specs.Streams.{moment_of};
ghost use Rattle.ua_conn.specs.server.Site.{Site};
ghost use Rattle.ua_conn.specs.server.Held.{held, GoesOn};
ghost use Rattle.ua_conn.specs.server.Feeding.{Shown as Server};
ghost use Rattle.ua_link.specs.Clock.{Answered};
ghost use Rattle.ua_link.specs.Reads.{Cut, moment_of_read};
ghost use Rattle.ua_link.specs.Turns.{Seen};
ghost use Rattle.ua_link.specs.Reports.{cuts_with};
ghost use Rattle.ua_link.specs.Connections.{Standing, Leaves, IsFed, Calls, FailedCalls, is_read, bytes_of, has_moved, is_opening, is_within_frame, is_due, frame_patience, least_left, left_at, begun_at};

mod feeding;
mod finishing;
mod reading;

use crate::clock::Clock;
use crate::front::Front;
use crate::ready_link::ReadyLink;
use crate::waiting::Waiting;
use std::alloc::Global;
use std::marker::Model;
use ua_conn::{End, Server};
use ua_disco::Settings;
use ua_frame::{later, moment_at};
use ua_value::NoMemory;
use ua_value::plumbing::let_go;

/// The most bytes that may be owed to a client while it is read, or heard.
const MOST_OWED: usize = 65_536;

/// How many times as long as a client may be quiet one of its frames may take.
const FRAME_PATIENCE: u64 = 10;

/// How a connection is over.
#[derive(Clone, Copy, Debug, PartialEq, Eq)]
pub enum Over {
    /// It came to this end.
    Ended(End),
    /// Its client did nothing for as long as patience lasts, opened no channel within that, or took ten times that for a frame.
    TimedOut,
}

/// What one turn of a connection did.
#[derive(Clone, Copy, Debug)]
pub struct ReadyTurn {
    /// What the steady clock said behind the read, in ticks of 100 ns.
    pub moment: i64,
    /// What the clock of the day said behind a read that gave something, in ticks of 100 ns since 1601-01-01 UTC, and how
    /// many bytes came, 0 at the end of the input; `None` where nothing came.
    pub cut: Option<(i64, usize)>,
    /// The bytes that went out.
    pub written: usize,
    /// How the connection is over, if it is.
    pub over: Option<Over>,
}

/// Whether some byte came or went.
fn has_moved(cut: Option<(i64, usize)>, written: usize) -> bool
    ensures { result ≡ has_moved cut written }
{
    match cut {
        Some((_, n)) => n > 0 || written > 0,
        None => written > 0,
    }
}

impl ReadyTurn {
    /// A turn that a call of the link, or want of memory, ended.
    fn ended(moment: i64, cut: Option<(i64, usize)>, end: End) -> ReadyTurn
        ensures { result ≡ record { moment = moment; cut = cut; written = 0; over = Some (Over.Ended end) } }
    {
        ReadyTurn {
            moment,
            cut,
            written: 0,
            over: Some(Over::Ended(end)),
        }
    }

    /// Whether some byte came or went, so that a further turn may find more to do at once.
    pub fn has_moved(&self) -> bool
        ensures { result ≡ has_moved self.now.cut self.now.written }
    {
        has_moved(self.cut, self.written)
    }
}

/// The lesser of two numbers of ticks, of which the second may not count.
fn least_left(ticks: u64, counts: bool, other: u64) -> u64
    ensures { result ≡ least_left ticks counts other }
{
    if counts { ticks.min(other) } else { ticks }
}

/// The ticks that a frame may take.
fn frame_patience(patience: u64) -> u64
    ensures { result ≡ frame_patience patience }
{
    patience.saturating_mul(FRAME_PATIENCE)
}

/// One connection of a server that has several.
///
/// It keeps what the server said until the link took it. While more than 65,536 bytes are owed to the client, it is not
/// read, and the server hears no further frame of what was read: what waits of it is heard once fewer are owed. So a
/// client that asks and never reads is owed 65,536 bytes and what one frame is answered. OPC 10000-6, 6.7 and 7.1.
#[derive(Drop)]
pub struct ServerConnection<'a> {
    server: Server<'a>,
    /// What was read and the server did not hear yet, and the moment at which it came.
    waiting: Waiting,
    came: i64,
    /// The frame of which the server heard a part.
    front: Front,
    /// What the server said, as far as it is not out, behind some that is.
    said: Vec<u8>,
    /// How many bytes of it are out.
    out: usize,
    ending: Option<End>,
    /// How many reads are left.
    left: u32,
    /// Steady moments: of the beginning, the greatest, the one at which a byte last came or went, and the one at which the
    /// server heard the first byte of that frame.
    begun: u64,
    latest: u64,
    active: u64,
    frame: u64,
}

impl<'a> Model for ServerConnection<'a> {
    ghost use Rattle.std.specs.Prelude.{◌≡◌, ◌+◌, ◌<◌, ◌≤◌, None, [], drop, length};
    ghost use Rattle.ua_link.specs.Connections.{Shown};
    ghost use Rattle.ua_link.specs.Fronts.{IsFront};

    ghost Value = { Shown };

    ghost view = { λ c. record {
      server = c.server;
      waiting = c.waiting;
      came = c.came;
      owed = drop c.out c.said.items;
      ending = c.ending;
      left = c.left;
      begun = c.begun;
      latest = c.latest;
      active = c.active;
      frame = c.frame;
    } };

    // Of what stands in the buffer, no more is out than is owed.
    ghost invariant = { λ c. (c.out + c.out ≤ length c.said.items)
        × (c.begun ≤ c.latest) × (c.active ≤ c.latest) × (c.frame ≤ c.latest)
        × (c.ending ≡ None → c.waiting ≡ [] → 0 < c.left)
        × (c.ending ≡ None → IsFront c.front.header c.front.got c.front.missing c.server.held.rest) };
}

impl<'a> ServerConnection<'a> {
    /// A connection that begins at the steady moment `begun`, in ticks of 100 ns, for the channel with this id, which is
    /// not 0; it is read `turns` times at most, which is not 0 either. OPC 10000-6, 6.7 and 7.1.
    ///
    /// # Errors
    ///
    /// `NoMemory` where a growth was refused.
    pub fn new(
        alloc: Global,
        settings: &'a Settings,
        id: u32,
        begun: i64,
        turns: u32,
    ) -> Result<ServerConnection<'a>, NoMemory>
        requires channel { 0 < id }
        requires turns { 0 < turns }
        ensures begins { IfOk result (λ c. let site : Site = record { settings = settings.now; channel = id } in
            (s : Seen) → Standing site turns c [] 0 s s) }
        ensures new { IfOk result (λ c. let site : Site = record { settings = settings.now; channel = id } in
            c ≡ record { server = record { site = site; held = held site []; failed = false }; waiting = []; came = pos 0; owed = []; ending = None; left = turns; begun = moment_of begun; latest = moment_of begun; active = moment_of begun; frame = moment_of begun }) }
    {
        let server = Server::new(alloc, settings, id)?;
        let waiting = match Waiting::new(alloc) {
            Ok(waiting) => waiting,
            Err(error) => {
                let_go(server);
                return Err(error);
            }
        };
        let begun = moment_at(begun);
        Ok(ServerConnection {
            server,
            waiting,
            came: 0,
            front: Front::new(),
            said: Vec::new(alloc),
            out: 0,
            ending: None,
            left: turns,
            begun,
            latest: begun,
            active: begun,
            frame: begun,
        })
    }

    /// The ticks that are left at the steady moment `now` until the connection times out where nothing comes or goes.
    pub fn patience_left(&self, now: i64, patience: u64) -> u64
        ensures { result ≡ left_at self.now (max self.now.latest (moment_of now)) patience }
    {
        let now = later(self.latest, now);
        let quiet = patience.saturating_sub(now - self.active);
        let opening = least_left(
            quiet,
            self.is_opening(),
            patience.saturating_sub(now - self.begun),
        );
        least_left(
            opening,
            self.is_within_frame(),
            frame_patience(patience).saturating_sub(now - self.frame),
        )
    }

    /// Whether no channel is open yet, and no end came.
    fn is_opening(&self) -> bool
        ensures { result ≡ is_opening self.now }
    {
        self.ending.is_none() && !self.server.is_open()
    }

    /// Whether a frame was begun and is not whole, and no end came.
    fn is_within_frame(&self) -> bool
        ensures { result ≡ is_within_frame self.now }
    {
        self.ending.is_none() && self.front.is_begun()
    }

    /// Keeps the steady moment, unless it goes back.
    fn note(&mut self, moment: i64)
        ensures noted { self.new ≡ record self.old { latest = max self.old.latest (moment_of moment) } }
        ensures left { self.new.ending ≡ None → self.new.waiting ≡ [] → 0 < self.new.left }
    {
        self.latest = later(self.latest, moment);
    }

    /// What the server said and is not out yet.
    fn owed(&self) -> &[u8]
        ensures { result.now ≡ self.now.owed }
    {
        &self.said[self.out..]
    }

    /// One turn: one read of at most 4096 bytes, where no end came yet, nothing waits and at most 65,536 bytes are owed; then
    /// the steady clock `timer` is asked; then the server hears what waits, frame by frame, as long as at most 65,536 bytes
    /// are owed; and then one write of what is owed, of which the link takes what it takes. Neither waits. The link failed
    /// fewer than 2^64 - 1 times before. The `clock` of the day is asked behind a read that gave something.
    ///
    /// What goes out is a beginning of the reply to what was read, each read at the moment of its `cut`; what of it is not
    /// out is kept, and all of it is out before the connection is over, but for these ends: `LinkFailed` says that the
    /// read or the write failed, `NoMemory` that a growth was refused, and `TimedOut` that by the steady clock one of these
    /// took too long, in ticks of 100 ns: no byte came or went in this turn, nor before it for at least `patience`; no end
    /// came, and no channel was open `patience` after the beginning; no end came, and a frame was not whole ten times
    /// `patience` behind its first byte. A steady clock that goes back makes nobody's time shorter: its moment counts as the
    /// greatest before. `TurnsSpent` says that all turns of `new` were spent in reads; `InputEnded`, `Truncated`, `Closed`
    /// and `Refused` are those of the server. A connection that is over takes no further turn. OPC 10000-6, 6.7 and 7.1.
    pub fn turn<L: ReadyLink, C: Clock, T: Clock>(
        &mut self,
        link: &mut L,
        clock: &mut C,
        timer: &mut T,
        patience: u64,
    ) -> ReadyTurn
        requires countable { L.fault_count link.old < 2 ^ 64 - 1 }

        // The clocks, and the calls of the link.
        ensures asked { Answered (C.answered clock.old) (C.answered clock.new) (moment_of_read result.cut) }
        ensures timed { Answered (T.answered timer.old) (T.answered timer.new) (result.moment ∷ []) }
        ensures cut { IfSome result.cut (λ cut. (is_read self.old ≡ true) × (cut.1 ≤ 4096)) }
        ensures calls { L.fault_count link.new ≡ L.fault_count link.old → (result.over ≡ Some (Over.Ended End.NoMemory) → ⊥) →
            Calls (is_read self.old) (length self.new.owed + result.written) (L.tried link.old) (L.tried link.new) }
        ensures failed { L.fault_count link.new ≡ L.fault_count link.old + 1 → FailedCalls (is_read self.old) (L.tried link.old) (L.tried link.new) }

        // What the server heard, and what waits.
        ensures fed { (result.over ≡ Some (Over.Ended End.NoMemory) → ⊥) → self.old.ending ≡ None → IsFed self.old self.new result.cut }
        ensures waits { (result.over ≡ Some (Over.Ended End.NoMemory) → ⊥) → self.new.ending ≡ None → length self.new.owed + result.written ≤ 65536 → self.new.waiting ≡ [] }

        // Patience.
        ensures begun { self.new.begun ≡ self.old.begun }
        ensures latest { self.new.latest ≡ max self.old.latest (moment_of result.moment) }
        ensures active { result.over ≡ None → self.new.active ≡ (if has_moved result.cut result.written then self.new.latest else self.old.active) }
        ensures frame { result.over ≡ None → self.new.ending ≡ None → 0 < length self.new.server.held.rest →
            self.new.frame ≡ begun_at (length self.new.server.held.rest) (length self.old.waiting + bytes_of result.cut - length self.new.waiting) self.new.latest self.old.frame }
        ensures patient { result.over ≡ None → is_due (record self.new { active = self.old.active }) (has_moved result.cut result.written) patience ≡ false }
        ensures impatient { result.over ≡ Some Over.TimedOut → is_due (record self.new { active = self.old.active }) (has_moved result.cut result.written) patience ≡ true }

        // What went out.
        ensures leaves { let before : Seen = record { input = L.input link.old; output = L.output link.old; faults = L.fault_count link.old } in
            let after : Seen = record { input = L.input link.new; output = L.output link.new; faults = L.fault_count link.new } in
            (site : Site) (turns : ℕ) (cuts : List Cut) (n : ℕ) (begun : Seen) → Standing site turns self.old cuts n begun before → Leaves site turns self.new (cuts_with result.cut cuts) (n + result.written) begun after result.over }
    {
        let came = self.read(link, clock);
        let moment = timer.now();
        self.note(moment);
        let Ok(cut) = came else {
            return ReadyTurn::ended(moment, None, End::LinkFailed);
        };
        match self.hear() {
            Ok(()) => self.finish_turn(link, moment, cut, patience),
            Err(_) => ReadyTurn::ended(moment, cut, End::NoMemory),
        }
    }
}
