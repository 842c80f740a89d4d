//! A DataValue whose value is a single number or truth value, put together on the stack and then put at once.

ghost use Rattle.std.specs.Prelude.{◌≡◌, ◌++◌, [], if◌then◌else◌, IfSome};
ghost use Rattle.ua_variant.specs.Spelling.{data_canon};

use crate::element::LAST_NUMBER;
use crate::variant::{Body, DataValue};
use crate::writing::{head_of, put_number};
use std::alloc::AllocError;
use std::marker::Model;
use ua_value::{NoMemory, Sink};

/// The mask, the kind, a number of at most 8 bytes, and 24 bytes of stamps, rounded up.
const MOST: usize = 40;

/// A few bytes that were put. It refuses what it has no room for.
#[derive(Drop)]
struct Short {
    bytes: [u8; MOST],
    len: usize,
}

impl Model for Short {
    ghost use Rattle.std.specs.Prelude.{List, ℕ, ◌≤◌, take};

    ghost Value = { List ℕ };

    ghost view = { λ s. take s.len s.bytes };

    ghost invariant = { λ s. s.len ≤ 40 };
}

impl Short {
    #[inline(always)]
    fn new() -> Short
        ensures { result ≡ [] }
    {
        Short {
            bytes: [0; MOST],
            len: 0,
        }
    }

    #[inline(always)]
    fn as_slice(&self) -> &[u8]
        ensures { result.now ≡ self.now }
    {
        &self.bytes[..self.len]
    }
}

impl Sink for Short {
    ghost contents = { λ s. s };

    #[inline(always)]
    fn put(&mut self, bytes: &[u8]) -> Result<(), NoMemory> {
        if bytes.len() > MOST - self.len {
            return Err(AllocError);
        }
        let end = self.len + bytes.len();
        self.bytes[self.len..end].copy_from_slice(bytes);
        self.len = end;
        Ok(())
    }
}

/// The value is a single number or truth value, so that `emit_short` is worth a call. No result rests on it: it only chooses
/// between two ways that put the same.
#[inline(always)]
pub(crate) fn is_short(value: &DataValue) -> bool {
    match &value.value {
        Some(inner) => match &inner.body {
            Body::One(one) => one.kind().number() <= LAST_NUMBER,
            _ => false,
        },
        None => false,
    }
}

/// The spelling of a DataValue whose value is a single number or truth value, and of no other one.
#[inline(always)]
fn spelled(value: &DataValue) -> Option<Short>
    ensures { IfSome result (λ s. s ≡ data_canon value.now) }
{
    let Some(inner) = &value.value else {
        return None;
    };
    let Body::One(one) = &inner.body else {
        return None;
    };
    let mut short = Short::new();
    let kind = one.kind();
    let heads = [1 + value.stamps.mask(), head_of(kind, false, false)];
    if short.put(&heads).is_err() {
        return None;
    }
    let Some(Ok(())) = put_number(one, &mut short) else {
        return None;
    };
    match value.stamps.emit(&mut short) {
        Ok(()) => Some(short),
        Err(_) => None,
    }
}

/// Puts a DataValue whose value is a single number or truth value, as most are, and says that it did. It did not where the
/// value is another, or the sink has no room for all of it at once; nothing has changed then. Its frame is apart from those
/// of the recursion, so that what is 100 deep is written on little stack.
#[inline(never)]
pub(crate) fn emit_short<S: Sink>(value: &DataValue, out: &mut S) -> bool
    ensures { S.contents out.new ≡ (if result then S.contents out.old ++ data_canon value.now else S.contents out.old) }
{
    match spelled(value) {
        Some(short) => out.put(short.as_slice()).is_ok(),
        None => false,
    }
}
