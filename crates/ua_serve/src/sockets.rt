//! Where connections come from, and what says which of them is ready.

ghost use Rattle.std.specs.Prelude.{◌≡◌, ℕ, List, Option, None};
ghost use Rattle.ua_serve.specs.Looks.{IsNoted, Look, found_of};
ghost use Rattle.ua_serve.specs.Waits.{Wakes};

use ua_link::{LinkFault, ReadyLink};

/// What came of looking for the next connection.
#[derive(Drop)]
pub enum Accepted<L> {
    /// This one was taken.
    Link(L),
    /// None waits.
    Nobody,
    /// None was taken, since the system has no descriptor for it, or no memory. It has once others are closed.
    NoSocket,
    /// None was taken, since the call failed. A later one may not.
    Failed,
}

/// A listener, and the links of the connections that were taken from it, each with a place: a number from 0 on.
pub trait Sockets {
    type Link: ReadyLink + Drop;

    /// How long each wait could last, in their order, where that is known: sockets may keep no record, or lose it.
    ghost waited: { Self → Option (List (Option ℕ)) } = { λ _. None };

    /// The places for which a connection was looked for, in their order, each with what came of that, where they are known.
    ghost sought: { Self → Option (List Look) } = { λ _. None };

    /// Waits until something is ready, but no longer than so many ticks of 100 ns, or however long that takes without
    /// them. `ready` has an entry for each place, and one behind them for the listener: those become true whose link, or
    /// listener, may do something now. The others stay as they are.
    ///
    /// # Errors
    ///
    /// `LinkFault` where nothing can be waited for.
    fn wait(&mut self, at_most: Option<u64>, ready: &mut [bool]) -> Result<(), LinkFault>
        ensures waits { IsNoted (waited self.old) (waited self.new) at_most }
        ensures kept { sought self.new ≡ sought self.old }
        ensures wakes { Wakes ready.old ready.new };

    /// Takes the next connection that waits, if any does. Its link has this place from then on.
    fn accept(&mut self, place: usize) -> Accepted<Self::Link>
        ensures seeks { IsNoted (sought self.old) (sought self.new) (place, found_of result) }
        ensures kept { waited self.new ≡ waited self.old };
}
