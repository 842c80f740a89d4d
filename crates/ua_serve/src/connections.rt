//! The connections of a server that has several at once, each with a place.

ghost use Rattle.std.specs.Prelude.{◌≡◌, ◌≢◌, ◌+◌, ◌<◌, ◌↔◌, ℕ, ℤ, pos, List, length, replicate, Option, None, Some, true, false, slice_get, slice_set, IsTrue, All, IfOk};
ghost use Rattle.ua_serve.specs.declared.lingering.LingeringLink.{LingeringLink};
ghost use Rattle.ua_serve.specs.declared.place.Place.{Place};
ghost use Rattle.ua_serve.specs.declared.place.Seat.{Seat};
ghost use Rattle.ua_serve.specs.Places.{is_ready, HasPlace, AreNumbered};
ghost use Rattle.ua_serve.specs.Turn.{seen_by};
ghost use Rattle.ua_serve.specs.Admission.{Admits, Begins, pause_left, may_accept, can_accept, with_one, with_pause, with_place, with_failure, told_failure};
ghost use Rattle.ua_serve.specs.Steps.{seeks, Steps, GoesOn, Fades, AllStand, IsTold};
ghost use Rattle.ua_serve.specs.Waits.{due_in, IsSoonest, Waits};

use crate::place::{Parted, Place, Seat, Step, are_free, is_due, linger_at, turn_at};
use crate::sockets::{Accepted, Sockets};
use crate::soonest::sooner;
use std::alloc::Global;
use std::marker::Model;
use ua_conn::End;
use ua_disco::Settings;
use ua_link::{Clock, LinkFault, Over, ReadyLink, ServerConnection};
use ua_value::NoMemory;
use ua_value::plumbing::let_go;

/// The most reads of one connection.
const TURNS: u32 = 65536;

/// The ticks of 100 ns for which nobody is accepted after that failed: half a second.
const PAUSE: i64 = 5_000_000;

/// How often in a row accepting may fail.
const MOST_FAILURES: u32 = 100;

/// The connections of a server that has several at once. Each has one of so many places, and its link, which may keep that
/// a while longer; where none is free, the next connection waits in the listener.
#[derive(Drop)]
pub struct Connections<'a, L> {
    alloc: Global,
    settings: &'a Settings,
    places: Vec<Seat<'a, L>>,
    /// Which places may do something, and behind them whether somebody may wait in the listener.
    ready: Vec<bool>,
    /// The ticks for which there is patience with a client that is quiet.
    patience: u64,
    /// How many connections are still to be accepted.
    left: u32,
    /// The id of the last one that began.
    last: u32,
    /// The steady moment of the last wait.
    moment: i64,
    /// The one until which nobody is accepted.
    shut: i64,
    /// How often accepting failed, and how often since it last did not.
    failed: u64,
    in_a_row: u32,
}

impl<'a, L> Model for Connections<'a, L> {
    ghost use Rattle.std.specs.Prelude.{◌≡◌, ◌+◌, ◌^◌, ◌<◌, length};
    ghost use Rattle.ua_serve.specs.Places.{Crowd};

    ghost Value = { Crowd L };

    ghost view = { λ c. record {
      settings = c.settings.now;
      places = c.places.items;
      ready = c.ready.items;
      patience = c.patience;
      left = c.left;
      last = c.last;
      moment = c.moment;
      shut = c.shut;
      failed = c.failed;
      in_a_row = c.in_a_row;
    } };

    ghost invariant = { λ c. (length c.ready.items ≡ length c.places.items + 1) × (c.last + c.left < 2 ^ 32) };
}

impl<'a, L: ReadyLink + Drop> Connections<'a, L> {
    /// None yet, of `wanted` that are to be served by these settings, `at_once` of them at most at one time, each with a
    /// patience of so many ticks of 100 ns ([`ServerConnection::turn`]). Their channels have the ids from 1 on.
    ///
    /// # Errors
    ///
    /// `NoMemory` where a growth was refused.
    pub fn new(
        alloc: Global,
        settings: &'a Settings,
        wanted: u32,
        at_once: u32,
        patience: u64,
    ) -> Result<Connections<'a, L>, NoMemory>
        ensures new { IfOk result (λ c. c ≡ record { settings = settings.now; places = replicate at_once Seat.Free; ready = replicate (at_once + 1) true; patience = patience; left = wanted; last = 0; moment = pos 0; shut = pos 0; failed = 0; in_a_row = 0 }) }
        ensures stand { IfOk result (λ c. AllStand (seen_by L.input L.output L.fault_count) c) }
        ensures numbered { IfOk result AreNumbered }
    {
        let at_once = at_once as usize;
        let ready = Vec::from_elem(alloc, true, at_once + 1)?;
        let mut places = Vec::new(alloc);
        'places: for _ in 0..at_once {
            places.push(Seat::Free)?;
        }
        Ok(Connections {
            alloc,
            settings,
            places,
            ready,
            patience,
            left: wanted,
            last: 0,
            moment: 0,
            shut: 0,
            failed: 0,
            in_a_row: 0,
        })
    }

    /// How many places there are.
    pub fn places(&self) -> usize
        ensures { result ≡ length self.now.places }
    {
        self.places.len()
    }

    /// Whether all connections were served, and no link of them lingers.
    pub fn is_done(&self) -> bool
        ensures { IsTrue result ↔ ((self.now.left ≡ 0) × All (λ seat. seat ≡ Seat.Free) self.now.places) }
    {
        self.left == 0 && are_free(&self.places)
    }

    /// The ticks for which nobody is accepted. A clock that went back makes them no more.
    fn shut_for(&self) -> u64
        ensures { result ≡ pause_left self.now }
    {
        let ticks = self.shut.saturating_sub(self.moment);
        if ticks < 0 || ticks > PAUSE {
            0
        } else {
            ticks as u64
        }
    }

    /// Whether the link with this place, or with the number behind them the listener, may do something now.
    fn is_ready(&self, place: usize) -> bool
        ensures { result ≡ is_ready self.now.ready place }
    {
        match self.ready.get(place) {
            Some(ready) => *ready,
            None => false,
        }
    }

    /// Notes whether it may.
    fn note(&mut self, place: usize, is_ready: bool)
        ensures { self.new ≡ record self.old { ready = slice_set self.old.ready place is_ready } }
    {
        if let Some(ready) = self.ready.get_mut(place) {
            *ready = is_ready;
        }
    }

    /// Whether somebody may be accepted, once that is tried again.
    fn may_accept(&self) -> bool
        ensures { result ≡ may_accept self.now }
    {
        self.left > 0 && self.is_ready(self.places.len())
    }

    /// The ticks after which the place with this number is to have a step even if nothing becomes ready, if it is.
    fn due_in(&self, place: usize) -> Option<u64>
        ensures { result ≡ due_in self.now place }
    {
        match self.places.get(place) {
            Some(Seat::Free) if self.may_accept() => Some(self.shut_for()),
            Some(Seat::Free) | None => None,
            Some(_) if self.is_ready(place) => Some(0),
            Some(Seat::Taken(taken)) => Some(taken.patience_left(self.moment, self.patience)),
            Some(Seat::Lingering(link)) => Some(link.left(self.moment)),
        }
    }

    /// The ticks after which something is to be done even if nothing becomes ready.
    fn longest_wait(&self) -> Option<u64>
        ensures { IsSoonest self.now result }
    {
        let mut least = None;
        'places: for place in 0..self.places.len() {
            least = sooner(least, self.due_in(place));
        }
        least
    }

    /// Waits until something is ready, or patience with some client is at its end, or some link lingered for its second, or the
    /// pause is over in which nobody is accepted. All of this goes by the steady clock `timer`. No place changes.
    ///
    /// # Errors
    ///
    /// `LinkFault` where nothing can be waited for.
    pub fn wait<S: Sockets, T: Clock>(
        &mut self,
        sockets: &mut S,
        timer: &mut T,
    ) -> Result<(), LinkFault>
        ensures sought { S.sought sockets.new ≡ S.sought sockets.old }
        ensures waits { Waits (T.answered timer.old) (T.answered timer.new) (S.waited sockets.old) (S.waited sockets.new) self.old self.new }
    {
        self.moment = timer.now();
        let at_most = self.longest_wait();
        let waited = sockets.wait(at_most, &mut self.ready);
        self.moment = timer.now();
        waited
    }

    /// Gives the place with this number a step, which changes no other place.
    ///
    /// Where it is free, somebody is still to be accepted and may wait in the listener, and no pause is kept, the next
    /// connection that waits takes it: its id is one more than that of the last one. Where it is taken, the connection has a
    /// turn over its own link, if that is ready or patience with its client is at its end; `clock` says the moments of its
    /// protocol, and the steady clock `timer` those by which patience goes. It keeps its place, or is over: then
    /// the place is free, and what is told of it is its id, how it is over and how many bytes came and went. Of each
    /// connection that has a place what went out is a beginning of the reply to what came, each read at its moment, and so
    /// it is of one that is over; a link that failed 2^64 - 1 times before is given up, with no turn. Without memory for it a
    /// connection is over before it begins, and no other one is. Behind a failure to accept nobody is accepted for half a
    /// second; the hundredth in a row is told as `Failed`. Nobody is either where the system has no socket to give, which is
    /// no failure, and ends nothing.
    ///
    /// The link of one that was closed or refused, or had all its turns, keeps the place a while longer: nothing is written
    /// over it any more, and what comes is dropped, in one read a step where it is ready, until its input ends, a read fails,
    /// 64 KiB came or a second has gone by. OPC 10000-6, 6.7 and 7.1.
    pub fn step<S: Sockets<Link = L>, C: Clock, T: Clock>(
        &mut self,
        sockets: &mut S,
        clock: &mut C,
        timer: &mut T,
        place: usize,
    ) -> Step
        ensures steps { Steps (seen_by L.input L.output L.fault_count) L.tried (C.answered clock.old) (C.answered clock.new) (T.answered timer.old) (T.answered timer.new) (S.sought sockets.old) (S.sought sockets.new) self.old self.new place result }
        ensures others { (k : ℕ) → k ≢ place → slice_get self.new.places k ≡ slice_get self.old.places k }
        ensures stand { AllStand (seen_by L.input L.output L.fault_count) self.old → AllStand (seen_by L.input L.output L.fault_count) self.new }
        ensures told { AllStand (seen_by L.input L.output L.fault_count) self.old → IsTold (seen_by L.input L.output L.fault_count) self.old place result }
        ensures numbered { AreNumbered self.old → AreNumbered self.new }
        ensures looks_away { seeks self.old place ≡ false → S.sought sockets.new ≡ S.sought sockets.old }
        ensures waited { S.waited sockets.new ≡ S.waited sockets.old }
    {
        self.step_at(sockets, clock, timer, place)
    }

    /// Gives the place with this number that step, of which `step` says what it makes of all places.
    fn step_at<S: Sockets<Link = L>, C: Clock, T: Clock>(
        &mut self,
        sockets: &mut S,
        clock: &mut C,
        timer: &mut T,
        place: usize,
    ) -> Step
        ensures steps { Steps (seen_by L.input L.output L.fault_count) L.tried (C.answered clock.old) (C.answered clock.new) (T.answered timer.old) (T.answered timer.new) (S.sought sockets.old) (S.sought sockets.new) self.old self.new place result }
        ensures looks_away { seeks self.old place ≡ false → S.sought sockets.new ≡ S.sought sockets.old }
        ensures waited { S.waited sockets.new ≡ S.waited sockets.old }
    {
        match self.places.get(place) {
            Some(Seat::Free) => self.admit(sockets, timer, place),
            Some(Seat::Taken(_)) => self.turn(clock, timer, place),
            Some(Seat::Lingering(_)) => self.linger(place),
            None => Step::Quiet,
        }
    }

    /// Gives the next connection a place, if one waits.
    fn admit<S: Sockets<Link = L>, T: Clock>(
        &mut self,
        sockets: &mut S,
        timer: &mut T,
        place: usize,
    ) -> Step
        ensures admits { (asked : Option (List ℤ)) → Admits asked asked (T.answered timer.old) (T.answered timer.new) (S.sought sockets.old) (S.sought sockets.new) self.old self.new place result }
        ensures looks_away { can_accept self.old ≡ false → S.sought sockets.new ≡ S.sought sockets.old }
        ensures waited { S.waited sockets.new ≡ S.waited sockets.old }
    {
        if !self.may_accept() || self.shut_for() > 0 {
            return Step::Quiet;
        }
        match sockets.accept(place) {
            Accepted::Link(link) => self.begin(link, timer.now(), place),
            Accepted::Nobody => {
                let listener = self.places.len();
                self.note(listener, false);
                Step::Quiet
            }
            Accepted::NoSocket => {
                self.pause();
                Step::Quiet
            }
            Accepted::Failed => self.fail(),
        }
    }

    /// Nobody is accepted for half a second.
    fn pause(&mut self)
        ensures { self.new ≡ with_pause self.old }
    {
        self.shut = self.moment.saturating_add(PAUSE);
    }

    /// Notes that nobody could be accepted, which is tried again after a pause, but not for ever.
    fn fail(&mut self) -> Step
        ensures failed { self.new ≡ with_failure self.old }
        ensures told { result ≡ told_failure (with_failure self.old) }
    {
        self.failed = self.failed.saturating_add(1);
        self.in_a_row = self.in_a_row.saturating_add(1);
        self.pause();
        if self.in_a_row < MOST_FAILURES {
            Step::NotAccepted(self.failed)
        } else {
            Step::Failed
        }
    }

    /// Notes that one connection more was accepted, and gives its id.
    fn count_one(&mut self) -> u32
        requires { 0 < self.old.left }
        ensures counted { self.new ≡ with_one self.old }
        ensures id { result ≡ self.old.last + 1 }
    {
        self.in_a_row = 0;
        self.left = self.left.saturating_sub(1);
        self.last = self.last.saturating_add(1);
        self.last
    }

    /// Begins a connection.
    fn begin(&mut self, link: L, now: i64, place: usize) -> Step
        requires { 0 < self.old.left }
        ensures { Begins self.old self.new link now place result }
    {
        let id = self.count_one();
        let Ok(connection) = ServerConnection::new(self.alloc, self.settings, id, now, TURNS) else {
            let_go(link);
            return Step::Parted(Parted {
                id,
                over: Over::Ended(End::NoMemory),
                read: 0,
                written: 0,
            });
        };
        let taken = Place {
            id,
            link,
            connection,
            read: 0,
            written: 0,
        };
        self.seat(place, taken);
        Step::Quiet
    }

    /// Gives the place with this number to a connection, which may do something.
    fn seat(&mut self, place: usize, taken: Place<'a, L>)
        ensures { self.new ≡ with_place self.old place taken.entry }
    {
        match self.places.get_mut(place) {
            Some(seat) => seat.hold(taken),
            None => let_go(taken),
        }
        self.note(place, true);
    }

    /// Gives the connection with this place a turn, if it is due. Where that is its last, its link lingers there, or the place
    /// is free.
    fn turn<C: Clock, T: Clock>(&mut self, clock: &mut C, timer: &mut T, place: usize) -> Step
        ensures { (p : Place L) → HasPlace self.old place p → GoesOn (seen_by L.input L.output L.fault_count) L.tried (C.answered clock.old) (C.answered clock.new) (T.answered timer.old) (T.answered timer.new) self.old self.new place p result }
    {
        let is_ready = self.is_ready(place);
        let Some(seat) = self.places.get_mut(place) else {
            return Step::Quiet;
        };
        if !is_due(seat, is_ready, self.moment, self.patience) {
            return Step::Quiet;
        }
        let (is_ready, step) = turn_at(seat, clock, timer, self.moment, self.patience);
        self.note(place, is_ready);
        step
    }

    /// Gives the link that lingers at this place a step.
    fn linger(&mut self, place: usize) -> Step
        ensures { (asked timed : Option (List ℤ)) (l : LingeringLink L) → slice_get self.old.places place ≡ Some (Seat.Lingering l) → Fades (seen_by L.input L.output L.fault_count) L.tried asked asked timed timed self.old self.new place l result }
    {
        let is_ready = self.is_ready(place);
        let Some(held) = self.places.get_mut(place) else {
            return Step::Quiet;
        };
        let is_ready = linger_at(held, is_ready, self.moment);
        self.note(place, is_ready);
        Step::Quiet
    }
}
