//! What of the parts is next in order.

ghost use Rattle.std.specs.Prelude.{◌≡◌, ◌≤◌, ◌^◌, None, IfSome, IfNone};
ghost use Rattle.ua_stream.specs.Piece.{byte_at};
ghost use Rattle.ua_stream.specs.Run.{IsRun};

use crate::part::Part;

/// The bytes from a place on that one part has, as far as no part that came earlier has them.

pub(crate) fn run_at(parts: &[Part], next: u64) -> Option<&[u8]>
    requires { next ≤ 2 ^ 62 }
    ensures none { IfNone result (byte_at parts.now next ≡ None) }
    ensures run { IfSome result (λ run. IsRun parts.now next run.now) }
{
    let mut until = u64::MAX;
    for part in parts {
        let at = part.at();
        let end = part.end();
        if at > next {
            until = until.min(at);
        } else if next < end {
            let from = (next - at) as usize;
            let to = (end.min(until) - at) as usize;
            return Some(&part.bytes()[from..to]);
        }
    }
    None
}
