//! Why a value could not be read, made or written.

ghost use Rattle.std.specs.Prelude.{◌≡◌};
ghost use Rattle.ua_value.specs.declared.fault.ReadFault.TheVariants.{NoMemory as OutOfMemory};
ghost use Rattle.ua_value.specs.declared.fault.ValueFault.TheVariants.{NoMemory as OutOfRoom};

use std::alloc::{AllocError, AllocFailed};
use std::error::Error;
use std::fmt;

/// A growth was refused.
pub type NoMemory = AllocError;

/// Why bytes were not read as a value.
#[derive(Clone, Copy, Debug, PartialEq, Eq)]
pub enum ReadFault {
    /// No beginning of the bytes spells a value.
    Refused,
    /// A growth was refused. The bytes may or may not spell a value.
    NoMemory,
}

impl fmt::Display for ReadFault {
    fn fmt<W: fmt::Write>(&self, f: &mut fmt::Formatter<W>) -> fmt::Result {
        match self {
            ReadFault::Refused => write!(f, "the bytes spell no value"),
            ReadFault::NoMemory => write!(f, "out of memory"),
        }
    }
}

impl Error for ReadFault {}

impl From<AllocError> for ReadFault {
    ghost from_gives = { λ _ e. e ≡ OutOfMemory };

    fn from(_e: AllocError) -> ReadFault {
        ReadFault::NoMemory
    }
}

impl<T: Drop> From<AllocFailed<T>> for ReadFault {
    ghost from_gives = { λ _ e. e ≡ OutOfMemory };

    fn from(_e: AllocFailed<T>) -> ReadFault {
        ReadFault::NoMemory
    }
}

/// Why a value could not be made.
#[derive(Clone, Copy, Debug, PartialEq, Eq)]
pub enum ValueFault {
    /// A text, byte string or array has more than 2147483647 bytes or items.
    TooLong = 1,
    /// A growth was refused.
    NoMemory = 2,
}

impl fmt::Display for ValueFault {
    fn fmt<W: fmt::Write>(&self, f: &mut fmt::Formatter<W>) -> fmt::Result {
        match self {
            ValueFault::TooLong => write!(f, "more than 2147483647 bytes or items"),
            ValueFault::NoMemory => write!(f, "out of memory"),
        }
    }
}

impl Error for ValueFault {}

impl From<AllocError> for ValueFault {
    ghost from_gives = { λ _ e. e ≡ OutOfRoom };

    fn from(_e: AllocError) -> ValueFault {
        ValueFault::NoMemory
    }
}
