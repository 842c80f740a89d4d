//! One of several connections: its place, its link, its turns and its counts.

ghost use Rattle.std.specs.Prelude.{◌≡◌, ◌↔◌, ◌-◌, ◌^◌, ◌<◌, max, IsTrue, All};
ghost use Rattle.ua_disco.specs.Configuration.{Configuration};
ghost use Rattle.ua_frame.specs.Streams.{moment_of};
ghost use Rattle.ua_link.specs.Connections.{bytes_of, left_at};
ghost use Rattle.ua_serve.specs.declared.lingering.LingeringLink.{LingeringLink};
ghost use Rattle.ua_serve.specs.declared.place.Place.{Place};
ghost use Rattle.ua_serve.specs.declared.place.Seat.{Seat};
ghost use Rattle.ua_serve.specs.Turn.{seen_by, HasTurn, Takes};
ghost use Rattle.ua_serve.specs.Lingering.{Lingers};
ghost use Rattle.ua_serve.specs.Steps.{Moves, Lasts, Ends, is_due};

use crate::lingering::{LingeringLink, lingers};
use std::mem;
use ua_conn::End;
use ua_link::{Clock, Over, ReadyLink, ReadyTurn, ServerConnection};
use ua_value::plumbing::let_go;

/// A connection that is over.
#[derive(Clone, Copy, Debug)]
pub struct Parted {
    /// The id of its channel.
    pub id: u32,
    pub over: Over,
    /// The bytes that came.
    pub read: u64,
    /// The bytes that went out.
    pub written: u64,
}

/// What a step came to.
#[derive(Clone, Copy, Debug)]
pub enum Step {
    /// Nothing to be told.
    Quiet,
    /// A connection is over. Its place is free again, at once or once its link has lingered.
    Parted(Parted),
    /// No connection could be accepted; so often since the start.
    NotAccepted(u64),
    /// No connection could be accepted too often in a row.
    Failed,
}

/// A connection and its link.
#[derive(Drop)]
pub(crate) struct Place<'a, L> {
    pub(crate) id: u32,
    pub(crate) link: L,
    pub(crate) connection: ServerConnection<'a>,
    pub(crate) read: u64,
    pub(crate) written: u64,
}

/// What has a place.
#[derive(Drop)]
pub(crate) enum Seat<'a, L> {
    /// Nothing.
    Free,
    /// A connection.
    Taken(Place<'a, L>),
    /// The link of one that is over.
    Lingering(LingeringLink<L>),
}

impl<'a, L> Seat<'a, L> {
    pub(crate) fn is_free(&self) -> bool
        ensures { IsTrue result ↔ (self.now ≡ Seat.Free) }
    {
        match self {
            Seat::Free => true,
            _ => false,
        }
    }
}

impl<'a, L: Drop> Seat<'a, L> {
    /// Lets go of what has the place, and gives it to this connection.
    pub(crate) fn hold(&mut self, place: Place<'a, L>)
        ensures { self.new ≡ Seat.Taken place.entry }
    {
        let_go(mem::replace(self, Seat::Taken(place)));
    }
}

/// Whether all these places are free.
pub(crate) fn are_free<L>(places: &[Seat<L>]) -> bool
    ensures { IsTrue result ↔ All (λ seat. seat ≡ Seat.Free) places.now }
{
    places.iter().all(|seat| seat.is_free())
}

/// The bytes that a read brought.
fn came(cut: Option<(i64, usize)>) -> u64
    ensures { result ≡ bytes_of cut }
{
    match cut {
        Some((_, n)) => n as u64,
        None => 0,
    }
}

impl<'a, L: ReadyLink> Place<'a, L> {
    /// The ticks for which there is patience with the client.
    pub(crate) fn patience_left(&self, now: i64, patience: u64) -> u64
        ensures { result ≡ left_at self.now.connection (max self.now.connection.latest (moment_of now)) patience }
    {
        self.connection.patience_left(now, patience)
    }

    /// Gives the connection a turn, unless its link failed too often to count that.
    fn turn<C: Clock, T: Clock>(&mut self, clock: &mut C, timer: &mut T, patience: u64) -> ReadyTurn
        ensures { (settings : Configuration) → Takes (seen_by L.input L.output L.fault_count) L.tried settings patience (C.answered clock.old) (C.answered clock.new) (T.answered timer.old) (T.answered timer.new) self.old self.new result }
    {
        if self.link.failures() == u64::MAX {
            return ReadyTurn {
                moment: 0,
                cut: None,
                written: 0,
                over: Some(Over::Ended(End::LinkFailed)),
            };
        }
        self.turn_over_link(clock, timer, patience)
    }

    /// Gives the connection a turn over its link, and counts what came and went.
    fn turn_over_link<C: Clock, T: Clock>(
        &mut self,
        clock: &mut C,
        timer: &mut T,
        patience: u64,
    ) -> ReadyTurn
        requires { L.fault_count self.old.link < 2 ^ 64 - 1 }
        ensures { (settings : Configuration) → HasTurn (seen_by L.input L.output L.fault_count) L.tried settings patience (C.answered clock.old) (C.answered clock.new) (T.answered timer.old) (T.answered timer.new) self.old self.new result }
    {
        let turn = self.connection.turn(&mut self.link, clock, timer, patience);
        self.read = self.read.saturating_add(came(turn.cut));
        self.written = self.written.saturating_add(turn.written as u64);
        turn
    }
}

/// Whether the connection with this place is given a turn: its link may do something, or patience with its client is at its
/// end.
pub(crate) fn is_due<L: ReadyLink>(
    seat: &Seat<L>,
    is_ready: bool,
    moment: i64,
    patience: u64,
) -> bool
    ensures { result ≡ is_due seat.now is_ready moment patience }
{
    match seat {
        Seat::Taken(taken) => is_ready || taken.patience_left(moment, patience) == 0,
        _ => false,
    }
}

/// What has the place of a connection that is over so: its link, which was told that no more bytes come, or nothing.
fn behind<L: ReadyLink + Drop>(place: Place<L>, over: Over, now: i64) -> Seat<L>
    ensures { Ends (seen_by L.input L.output L.fault_count) L.tried now place.entry over result }
{
    if !lingers(over) {
        let_go(place);
        return Seat::Free;
    }
    let Place {
        mut link,
        connection,
        ..
    } = place;
    let_go(connection);
    link.end_output();
    Seat::Lingering(LingeringLink::new(link, now))
}

/// Lets go of the connection with this place, which is over so, and of its link, unless that lingers.
fn part<L: ReadyLink + Drop>(seat: &mut Seat<L>, over: Over, now: i64)
    ensures { (p : Place L) → seat.old ≡ Seat.Taken p → Ends (seen_by L.input L.output L.fault_count) L.tried now p over seat.new }
{
    if let Seat::Taken(place) = mem::replace(seat, Seat::Free) {
        *seat = behind(place, over, now);
    }
}

/// Gives the connection with this place a turn. Where that is its last, the connection is let go of, and so is its link,
/// unless that lingers. The first of the answer says whether a further step is due at once.
pub(crate) fn turn_at<L: ReadyLink + Drop, C: Clock, T: Clock>(
    seat: &mut Seat<L>,
    clock: &mut C,
    timer: &mut T,
    moment: i64,
    patience: u64,
) -> (bool, Step)
    ensures { (settings : Configuration) (p : Place L) → seat.old ≡ Seat.Taken p → Moves (seen_by L.input L.output L.fault_count) L.tried settings patience moment (C.answered clock.old) (C.answered clock.new) (T.answered timer.old) (T.answered timer.new) p seat.new result.0 result.1 }
{
    let Seat::Taken(taken) = seat else {
        return (false, Step::Quiet);
    };
    let turn = taken.turn(clock, timer, patience);
    let Some(over) = turn.over else {
        return (turn.has_moved(), Step::Quiet);
    };
    let parted = Parted {
        id: taken.id,
        over,
        read: taken.read,
        written: taken.written,
    };
    part(seat, over, moment);
    (lingers(over), Step::Parted(parted))
}

/// Gives the link that lingers at this place a step, behind which the place may be free. The answer says whether a further
/// one is due at once.
pub(crate) fn linger_at<L: ReadyLink + Drop>(seat: &mut Seat<L>, is_ready: bool, now: i64) -> bool
    ensures { (l : LingeringLink L) → seat.old ≡ Seat.Lingering l → Lasts (seen_by L.input L.output L.fault_count) L.tried now is_ready l seat.new result }
{
    let Seat::Lingering(link) = seat else {
        return false;
    };
    match link.step(is_ready, now) {
        Some(more) => more,
        None => {
            *seat = Seat::Free;
            false
        }
    }
}
