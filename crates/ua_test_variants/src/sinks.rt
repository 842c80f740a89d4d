//! A sink with room for little: a DataValue of a number, which is put at once where there is room for all of it, is put
//! part by part else.

use std::alloc::{AllocError, Global};
use ua_test_shared::spelling::{Shown, is_whole};
use ua_value::{NoMemory, Sink, Wire};
use ua_variant::DataValue;

/// What was put, and for how many bytes more there is room.
#[derive(Drop)]
pub(crate) struct SmallSink {
    pub(crate) bytes: Vec<u8>,
    pub(crate) room: usize,
}

impl Sink for SmallSink {
    ghost contents = { λ s. s.bytes.items };

    fn put(&mut self, bytes: &[u8]) -> Result<(), NoMemory> {
        if bytes.len() > self.room {
            return Err(AllocError);
        }
        match self.bytes.extend_from_slice(bytes) {
            Ok(()) => {
                self.room -= bytes.len();
                Ok(())
            }
            Err(_) => Err(AllocError),
        }
    }
}

/// A Double with its status, both moments and the picoseconds of each.
const EACH_PART: [u8; 34] = [
    0x3f, 11, 1, 2, 3, 4, 5, 6, 7, 8, 0, 0, 0x34, 0x80, 11, 12, 13, 14, 15, 16, 17, 18, 1, 2, 21,
    22, 23, 24, 25, 26, 27, 28, 3, 4,
];

/// Where its parts end: the mask, the kind, the number, the status, a moment, its picoseconds, and the other two.
const ENDS: [usize; 9] = [0, 1, 2, 10, 14, 22, 24, 32, 34];

/// The bytes of the parts that find room one after another.
fn fitting(room: usize) -> usize {
    let mut most = 0;
    for end in ENDS {
        if end <= room {
            most = end;
        }
    }
    most
}

#[derive(Drop)]
struct EachRoom {
    alloc: Global,
}

impl EachRoom {
    fn is_put(&self, value: &DataValue, room: usize) -> bool {
        let mut sink = SmallSink {
            bytes: Vec::new(self.alloc),
            room,
        };
        let is_whole = value.emit(&mut sink).is_ok();
        is_whole == (room >= EACH_PART.len())
            && EACH_PART.starts_with(&sink.bytes)
            && sink.bytes.len() == fitting(room)
    }
}

impl Shown<DataValue> for EachRoom {
    fn is_shown(&self, value: &DataValue) -> bool {
        for room in 0..=EACH_PART.len() + 1 {
            if !self.is_put(value, room) {
                return false;
            }
        }
        true
    }
}

#[test]
fn parts_are_put_that_find_room(rt: HostRuntime) {
    let alloc = rt.alloc();
    assert!(rt; is_whole::<DataValue, EachRoom>(alloc, &EACH_PART, &EachRoom { alloc }));
}
