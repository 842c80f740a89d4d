//! The two ends of a connection, whichever of them sent something.

ghost use Rattle.std.specs.Prelude.{◌≡◌};
ghost use Rattle.ua_stream.specs.Ends.{ends_of};

use ua_capture::Endpoint;

/// Two ends in their order.
#[derive(Clone, Copy, PartialEq, Eq, PartialOrd, Ord)]
pub(crate) struct Ends {
    lower: Endpoint,
    higher: Endpoint,
}

/// Two ends, in whichever order they are named.
pub(crate) fn ends_of(one: Endpoint, other: Endpoint) -> Ends
    ensures { result ≡ ends_of one other }
{
    if one.cmp(&other).is_lt() {
        Ends {
            lower: one,
            higher: other,
        }
    } else {
        Ends {
            lower: other,
            higher: one,
        }
    }
}
