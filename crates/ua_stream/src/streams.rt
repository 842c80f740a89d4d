//! The connections of a capture.

ghost use Rattle.std.specs.Prelude.{◌≡◌, ◌<◌, ◌≤◌, ◌==◌, [], ◌∷◌, ◌++◌, length, IfSome, IfNone, IfOk, slice_get, OnOk, OnErr, vec_len};
ghost use Rattle.std.specs.Option.{option_copied};
ghost use Rattle.ua_stream.specs.Connection.{no_bytes};
ghost use Rattle.ua_stream.specs.Index.{IsIndex, KeepAllEnds};
ghost use Rattle.ua_stream.specs.Shown.{connections_of};
ghost use Rattle.ua_stream.specs.Streams.{IsLast, HasNone, GoesOn, Opens, IsPutAt, IsBegun, IsPut, IsFull, IsClearedAt, IsGivenUpAt};

use crate::connection::{Connection, Way};
use crate::index::Index;
use std::alloc::{AllocError, Global};
use std::marker::Model;
use ua_capture::{Endpoint, Segment};

/// The most connections that are followed.
pub const MOST_CONNECTIONS: usize = 16384;

/// The connections of a capture, each with a number from 0 in the order in which they began.
#[derive(Drop)]
pub struct Streams {
    connections: Vec<Connection>,
    /// By which the last connection between two ends is found.
    index: Index,
}

impl Model for Streams {
    ghost use Rattle.std.specs.Prelude.{List};
    ghost use Rattle.ua_stream.specs.declared.connection.Connection.{Connection as Seen};
    ghost use Rattle.ua_stream.specs.Index.{IsIndex};

    ghost Value = { List Seen };

    ghost view = { λ a. a.connections.items };

    ghost invariant = { λ a. IsIndex a.connections.items a.index };
}

/// The last connection of these ends, and the way of what goes from the one to the other.
pub(crate) fn last_of(
    connections: &[Connection],
    index: &Index,
    from: Endpoint,
    to: Endpoint,
) -> Option<(usize, Way)>
    requires { IsIndex connections.now index.now }
    ensures found { IfSome result (λ last. IsLast connections.now from to last.0 last.1) }
    ensures none { IfNone result (HasNone connections.now from to 0) }
{
    match index.get(from, to) {
        Some(number) => match connections[number].way_of(from, to) {
            Some(way) => Some((number, way)),
            None => None,
        },
        None => None,
    }
}

/// The connection that a segment belongs to, and its way there: the last of its ends, unless it opens another one.
fn place_of(connections: &[Connection], index: &Index, segment: &Segment) -> Option<(usize, Way)>
    requires { IsIndex connections.now index.now }
    ensures goes_on { IfSome result (λ place. GoesOn connections.now segment.now place.0 place.1) }
    ensures opens { IfNone result (Opens connections.now segment.now) }
{
    match last_of(connections, index, segment.from(), segment.to()) {
        Some((number, way)) => {
            if connections[number].begins_new(way, segment) {
                None
            } else {
                Some((number, way))
            }
        }
        None => None,
    }
}

/// Begins a connection with a segment, whose bytes are not taken yet.
fn begin(
    connections: &mut Vec<Connection>,
    index: &mut Index,
    alloc: Global,
    segment: &Segment,
) -> Result<(), AllocError>
    requires { IsIndex connections.old.items index.old }
    ensures begun { OnOk result (connections.new.items ≡ connections.old.items ++ no_bytes segment.now ∷ []) }
    ensures unchanged { OnErr result (connections.new.items ≡ connections.old.items) }
    ensures indexed { IsIndex connections.new.items index.new }
{
    let number = connections.len();
    connections.push(Connection::new(alloc, segment))?;
    match index.put(segment.from(), segment.to(), number) {
        Ok(()) => Ok(()),
        Err(error) => {
            connections.truncate(number);
            Err(error)
        }
    }
}

/// Adds a segment to the connection with this number, the way that it goes.
fn put_at(
    connections: &mut Vec<Connection>,
    alloc: Global,
    number: usize,
    way: Way,
    segment: &Segment,
) -> Result<(), AllocError>
    requires { number < vec_len connections.old }
    ensures put { OnOk result (IsPutAt connections.old.items segment.now number way connections.new.items) }
    ensures kept { vec_len connections.new ≡ vec_len connections.old }
    ensures ends { KeepAllEnds connections.old.items connections.new.items }
{
    connections[number].take(alloc, way, segment)?;
    Ok(())
}

/// Lets go of the bytes that are ready in one way of the connection with this number.
fn clear_at(connections: &mut Vec<Connection>, number: usize, way: Way)
    requires { number < vec_len connections.old }
    ensures { IsClearedAt connections.old.items number way connections.new.items }
{
    connections[number].clear(way);
}

/// Takes no more bytes of one way of the connection with this number.
fn give_up_at(connections: &mut Vec<Connection>, number: usize, way: Way)
    requires { number < vec_len connections.old }
    ensures { IsGivenUpAt connections.old.items number way connections.new.items }
{
    connections[number].give_up(way);
}

impl Streams {
    /// No connections. It takes no memory.
    pub fn new(alloc: Global) -> Streams
        ensures { connections_of result ≡ [] }
    {
        Streams {
            connections: Vec::new(alloc),
            index: Index::new(alloc),
        }
    }

    /// How many connections began.
    pub fn len(&self) -> usize
        ensures { result ≡ length (connections_of self.now) }
    {
        self.connections.len()
    }

    /// Whether no connection began.
    pub fn is_empty(&self) -> bool
        ensures { result ≡ (length (connections_of self.now) == 0) }
    {
        self.connections.is_empty()
    }

    /// The connection with this number, if there is one.
    pub fn get(&self, number: usize) -> Option<&Connection>
        ensures { option_copied result ≡ slice_get (connections_of self.now) number }
    {
        self.connections.get(number)
    }

    /// Takes the bytes of a segment, and says the number of its connection and its way there. It is one more of the last
    /// connection of its ends; it begins a connection where there is none, and where it is a SYN that acknowledges
    /// nothing and is not known to be the one that opened that. `None` says that 16384 connections are followed, and that
    /// it would begin one more. The last connection of its ends is found in a count of steps that grows with the logarithm
    /// of that of the connections, whatever their ends are.
    ///
    /// # Errors
    ///
    /// Where memory is refused: the direction is stopped then, or the connection not begun.
    pub fn take(
        &mut self,
        alloc: Global,
        segment: &Segment,
    ) -> Result<Option<(usize, Way)>, AllocError>
        ensures put { IfOk result (λ place. IfSome place (λ p. IsPut (connections_of self.old) segment.now p.0 p.1 (connections_of self.new))) }
        ensures there { IfOk result (λ place. IfSome place (λ p. p.0 < length (connections_of self.new))) }
        ensures full { IfOk result (λ place. IfNone place (IsFull (connections_of self.old) segment.now (connections_of self.new))) }
        ensures kept { length (connections_of self.old) ≤ length (connections_of self.new) }
    {
        match place_of(&self.connections, &self.index, segment) {
            Some((number, way)) => {
                put_at(&mut self.connections, alloc, number, way, segment)?;
                Ok(Some((number, way)))
            }
            None => self.open(alloc, segment),
        }
    }

    /// Begins a connection with a segment.
    fn open(&mut self, alloc: Global, segment: &Segment) -> Result<Option<(usize, Way)>, AllocError>
        requires { Opens (connections_of self.old) segment.now }
        ensures put { IfOk result (λ place. IfSome place (λ p. IsBegun (connections_of self.old) segment.now p.0 p.1 (connections_of self.new))) }
        ensures there { IfOk result (λ place. IfSome place (λ p. p.0 < length (connections_of self.new))) }
        ensures full { IfOk result (λ place. IfNone place (IsFull (connections_of self.old) segment.now (connections_of self.new))) }
        ensures kept { length (connections_of self.old) ≤ length (connections_of self.new) }
    {
        let number = self.connections.len();
        if number >= MOST_CONNECTIONS {
            return Ok(None);
        }
        begin(&mut self.connections, &mut self.index, alloc, segment)?;
        put_at(&mut self.connections, alloc, number, Way::Forth, segment)?;
        Ok(Some((number, Way::Forth)))
    }

    /// Lets go of the bytes that are ready in one way of a connection, where there is one with this number.
    pub fn clear(&mut self, number: usize, way: Way)
        ensures cleared { number < length (connections_of self.old) → IsClearedAt (connections_of self.old) number way (connections_of self.new) }
        ensures none { length (connections_of self.old) ≤ number → connections_of self.new ≡ connections_of self.old }
    {
        if number < self.connections.len() {
            clear_at(&mut self.connections, number, way);
        }
    }

    /// Takes no more bytes of one way of a connection, as where there was no room, where there is one with this number:
    /// the way is stopped, and its memory is given back. It is for ways that nobody reads.
    pub fn give_up(&mut self, number: usize, way: Way)
        ensures given_up { number < length (connections_of self.old) → IsGivenUpAt (connections_of self.old) number way (connections_of self.new) }
        ensures none { length (connections_of self.old) ≤ number → connections_of self.new ≡ connections_of self.old }
    {
        if number < self.connections.len() {
            give_up_at(&mut self.connections, number, way);
        }
    }
}
