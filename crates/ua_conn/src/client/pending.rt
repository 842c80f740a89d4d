//! What was asked and not answered.

ghost use Rattle.std.specs.Prelude.{◌≡◌, ◌<◌, ◌++◌, ◌∷◌, [], None, length, slice_get, option_map, option_copied, is_some, OnOk};
ghost use Rattle.ua_conn.specs.client.Machine.{waiting_under, without};

use indexmap::IndexMap;
use std::alloc::Global;
use std::marker::Model;
use ua_service::Request;
use ua_value::NoMemory;
use ua_value::plumbing::let_go;

/// The requests that are pending, each under its id, in the order of asking. Contracts see the room for more beside
/// them.
#[derive(Drop)]
pub(crate) struct Pending {
    map: IndexMap<u32, Request>,
}

impl Model for Pending {
    ghost use Rattle.indexmap.specs.IndexMap.{spare};
    ghost use Rattle.ua_conn.specs.client.Taking.{Waiting};
    ghost use Rattle.ua_conn.specs.client.Waiting.{IsAll};

    ghost Value = { Waiting };

    ghost view = { λ p. record { requests = p.map.entries; room = spare p.map } };

    ghost invariant = { IsAll };
}

impl Pending {
    /// Nothing is pending; no memory is taken yet.
    pub(crate) fn new(alloc: Global) -> Pending
        ensures { result.requests ≡ [] }
    {
        Pending {
            map: IndexMap::new(alloc),
        }
    }

    /// How many requests are pending.
    pub(crate) fn len(&self) -> usize
        ensures { result ≡ length self.now.requests }
    {
        self.map.len()
    }

    /// Whether a request is pending under this id.
    pub(crate) fn has(&self, id: u32) -> bool
        ensures { result ≡ is_some (waiting_under id self.now.requests) }
    {
        self.map.contains_key(&id)
    }

    /// The request that is pending under this id.
    pub(crate) fn get(&self, id: u32) -> Option<&Request>
        ensures { option_copied result ≡ waiting_under id self.now.requests }
    {
        self.map.get(&id)
    }

    /// The request at place `i`, from 0, in the order of asking, with its id.
    pub(crate) fn at(&self, i: usize) -> Option<(u32, &Request)>
        ensures { option_map (λ p. (p.0, p.1.now)) result ≡ slice_get self.now.requests i }
    {
        let (id, request) = self.map.get_index(i)?;
        Some((*id, request))
    }

    /// Makes room for one more request.
    pub(crate) fn reserve(&mut self) -> Result<(), NoMemory>
        ensures room { OnOk result (0 < self.new.room) }
        ensures kept { self.new.requests ≡ self.old.requests }
    {
        self.map.reserve(1)
    }

    /// Puts a request behind the others, under an id under which none is pending.
    pub(crate) fn add(&mut self, id: u32, request: Request)
        requires { 0 < self.old.room }
        ensures { waiting_under id self.old.requests ≡ None → self.new.requests ≡ self.old.requests ++ (id, request) ∷ [] }
    {
        // (there is room, so it takes the request)
        let_go(self.map.insert(id, request));
    }

    /// Takes the request that is pending under this id, if there is one. The others keep their order.
    pub(crate) fn take(&mut self, id: u32) -> Option<Request>
        ensures taken { result ≡ waiting_under id self.old.requests }
        ensures left { self.new.requests ≡ without id self.old.requests }
    {
        self.map.shift_remove(&id)
    }
}
