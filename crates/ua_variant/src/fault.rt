//! Why a value could not be made.

ghost use Rattle.std.specs.Prelude.{◌≡◌};
ghost use Rattle.ua_variant.specs.declared.fault.VariantFault.TheVariants.{NoMemory as OutOfMemory};

use std::alloc::{AllocError, AllocFailed};
use std::error::Error;
use std::fmt;

/// Why a value of several parts could not be made. Where more than one reason holds, the first in
/// this order is given.
#[derive(Clone, Copy, Debug, PartialEq, Eq)]
pub enum VariantFault {
    /// The elements are not all of the kind that was named.
    MixedKinds = 1,
    /// A single value of a Variant is itself a Variant (OPC 10000-6, 5.2.2.16).
    SingleVariant = 2,
    /// The dimensions do not fit the number of elements.
    BadDimensions = 3,
    /// The value would be nested more than 100 deep.
    TooDeep = 4,
    /// A growth was refused.
    NoMemory = 5,
}

impl fmt::Display for VariantFault {
    fn fmt<W: fmt::Write>(&self, f: &mut fmt::Formatter<W>) -> fmt::Result {
        match self {
            VariantFault::MixedKinds => write!(f, "elements of another kind"),
            VariantFault::SingleVariant => write!(f, "a single value that is a Variant"),
            VariantFault::BadDimensions => write!(f, "dimensions that do not fit the elements"),
            VariantFault::TooDeep => write!(f, "nested more than 100 deep"),
            VariantFault::NoMemory => write!(f, "out of memory"),
        }
    }
}

impl Error for VariantFault {}

impl From<AllocError> for VariantFault {
    ghost from_gives = { λ _ e. e ≡ OutOfMemory };

    fn from(_e: AllocError) -> VariantFault {
        VariantFault::NoMemory
    }
}

impl<T: Drop> From<AllocFailed<T>> for VariantFault {
    ghost from_gives = { λ _ e. e ≡ OutOfMemory };

    fn from(_e: AllocFailed<T>) -> VariantFault {
        VariantFault::NoMemory
    }
}
