//! What a server says to a request.

ghost use Rattle.std.specs.Prelude.{◌≡◌, ◌<◌, ◌^◌};
ghost use Rattle.ua_conn.specs.server.Answers.{answer_body};

use ua_disco::{LentAnswer, Settings, lent_answer};
use ua_service::Request;

/// The answer to a request that came whole at the moment, in ticks, lent from both. OPC 10000-4, 5.5 and 7.35.
#[tactic(auto, unfolding(crate::specs::server::Answers::answer_body))]
pub(crate) fn answer_to<'a>(
    settings: &'a Settings,
    request: &'a Request,
    now: u64,
) -> LentAnswer<'a>
    requires { now < 2 ^ 63 }
    ensures { result ≡ answer_body settings.now request.now now }
{
    lent_answer(settings, request, now as i64)
}
