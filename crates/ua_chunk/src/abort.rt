//! The body of an abort.

ghost use Rattle.std.specs.Prelude.{◌≡◌};
ghost use Rattle.ua_chunk.specs.Layout.{abort_of};

use ua_value::plumbing::{front_u32, string_front};

/// The status of the abort with this body, if it is one.
#[tactic(auto, unfolding(crate::specs::Layout::abort_of, crate::specs::Layout::abort_body))]
pub(crate) fn abort_status(body: &[u8]) -> Option<u32>
    ensures { result ≡ abort_of body.now }
{
    let (status, rest) = front_u32(body)?;
    let (_reason, rest) = string_front(rest)?;
    if rest.is_empty() { Some(status) } else { None }
}
