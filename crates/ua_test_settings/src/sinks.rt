//! A sink with room for little: what stands spelled in the settings is put at once where there is room for all of it, and
//! part by part else.

use std::alloc::{AllocError, Global};
use ua_disco::{LentAnswer, Settings, lent_answer};
use ua_service::{Body, Request};
use ua_test_lent::by_default;
use ua_test_shared::vectors::{ENDPOINTS_REQUEST, ENDPOINTS_RESPONSE, FIND_REQUEST, FIND_RESPONSE};
use ua_value::{Emit, NoMemory, Sink};

/// What was put, and for how many bytes more there is room.
#[derive(Drop)]
pub(crate) struct SmallSink {
    bytes: Vec<u8>,
    room: usize,
}

impl SmallSink {
    pub(crate) fn new(alloc: Global, room: usize) -> SmallSink {
        SmallSink {
            bytes: Vec::new(alloc),
            room,
        }
    }

    pub(crate) fn bytes(&self) -> &[u8] {
        &self.bytes
    }
}

impl Sink for SmallSink {
    ghost contents = { λ s. s.bytes.items };

    fn put(&mut self, bytes: &[u8]) -> Result<(), NoMemory> {
        if bytes.len() > self.room {
            return Err(AllocError);
        }
        match self.bytes.extend_from_slice(bytes) {
            Ok(()) => {
                self.room -= bytes.len();
                Ok(())
            }
            Err(_) => Err(AllocError),
        }
    }
}

/// What was put, but for the put of one number, which is refused, and for each later one where it is to be so forever.
#[derive(Drop)]
pub(crate) struct OneRefused {
    bytes: Vec<u8>,
    puts: usize,
    refused: usize,
    forever: bool,
}

impl OneRefused {
    pub(crate) fn new(alloc: Global, refused: usize, forever: bool) -> OneRefused {
        OneRefused {
            bytes: Vec::new(alloc),
            puts: 0,
            refused,
            forever,
        }
    }

    pub(crate) fn bytes(&self) -> &[u8] {
        &self.bytes
    }

    pub(crate) fn has_refused(&self) -> bool {
        self.puts > self.refused
    }
}

impl Sink for OneRefused {
    ghost contents = { λ s. s.bytes.items };

    fn put(&mut self, bytes: &[u8]) -> Result<(), NoMemory> {
        let place = self.puts;
        self.puts = place.saturating_add(1);
        if place == self.refused || (self.forever && place > self.refused) {
            return Err(AllocError);
        }
        match self.bytes.extend_from_slice(bytes) {
            Ok(()) => Ok(()),
            Err(_) => Err(AllocError),
        }
    }
}

/// The bytes of each part of the answer to FindServers by default: what it begins with, the count, the application's two
/// URIs, its name, type, two null texts, and its url.
const SERVERS: [usize; 17] = [28, 4, 4, 5, 4, 5, 1, 4, 2, 4, 5, 4, 4, 4, 4, 4, 24];

/// The same of the answer to GetEndpoints: the url of the endpoint stands before the application; its certificate, mode,
/// policy, one token, transport and level behind it.
const ENDPOINTS: [usize; 33] = [
    28, 4, 4, 24, 4, 5, 4, 5, 1, 4, 2, 4, 5, 4, 4, 4, 4, 4, 24, 4, 4, 4, 47, 4, 4, 1, 4, 4, 4, 4,
    4, 65, 1,
];

/// The bytes of the parts that find room one after another.
fn fitting(parts: &[usize], room: usize) -> usize {
    let mut most = 0usize;
    for part in parts {
        let end = most.saturating_add(*part);
        if end > room {
            return most;
        }
        most = end;
    }
    most
}

fn is_put(alloc: Global, answer: &LentAnswer, body: &[u8], parts: &[usize], room: usize) -> bool {
    let mut sink = SmallSink::new(alloc, room);
    let is_whole = answer.emit(&mut sink).is_ok();
    is_whole == (room >= body.len())
        && body.starts_with(&sink.bytes)
        && sink.bytes.len() == fitting(parts, room)
}

fn are_put(alloc: Global, answer: &LentAnswer, body: &[u8], parts: &[usize]) -> bool {
    for room in 0..=body.len() {
        if !is_put(alloc, answer, body, parts, room) {
            return false;
        }
    }
    true
}

/// Whether each beginning of the answer to the request is put of whole parts.
fn is_answered(
    alloc: Global,
    settings: &Settings,
    request: &[u8],
    response: &[u8],
    parts: &[usize],
) -> bool {
    let (Some(request), Some(body)) = (request.get(24..), response.get(24..)) else {
        return false;
    };
    if request.len() > 1000 {
        return false;
    }
    match Request::read_body(alloc, request) {
        Ok(request) => are_put(alloc, &lent_answer(settings, &request, 0), body, parts),
        Err(_) => false,
    }
}

#[test]
fn parts_of_answers_are_put_that_find_room(rt: HostRuntime) {
    let alloc = rt.alloc();
    assert!(rt;
        by_default(alloc, |alloc, settings| {
            is_answered(alloc, settings, FIND_REQUEST, FIND_RESPONSE, &SERVERS)
        })
    );
    assert!(rt;
        by_default(alloc, |alloc, settings| {
            is_answered(
                alloc,
                settings,
                ENDPOINTS_REQUEST,
                ENDPOINTS_RESPONSE,
                &ENDPOINTS
            )
        })
    );
}
