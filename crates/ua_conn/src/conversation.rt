//! A whole conversation of a client and a server.

ghost use mathlib.Core.List.{IsPrefix};
ghost use Rattle.std.specs.Prelude.{◌≡◌, ◌≤◌, ◌<◌, ◌⊎◌, true, false, length, Some, None, IfOk};
ghost use Rattle.ua_frame.specs.Hello.{is_long};
ghost use Rattle.ua_chunk.specs.Numbers.{greatest_number};
ghost use Rattle.ua_conn.specs.BothEnds.{AnswersInOrder, Delivered, IsConfig, TokensLive, served};
ghost use Rattle.ua_conn.specs.Conversing.{setup_of, told_of};
ghost use Rattle.ua_conn.specs.Story.{Setup as Both, World, final};
ghost use Rattle.ua_conn.specs.client.Commands.{asked_in};
ghost use Rattle.ua_conn.specs.server.Greeting.{reverse_fault};
ghost use Rattle.ua_conn.specs.declared.outcome.End.TheVariants.{Closed};

mod ends;
mod valid;

use crate::conversation::ends::Ends;
use crate::conversation::valid::{schedule_is_valid, setup_is_in_range};
use crate::schedule::Step;
use crate::story::{Setup, Story};
use std::alloc::Global;
use ua_value::NoMemory;
use ua_value::plumbing::let_go;

/// Runs a client and a server against each other, step by step. Every byte that the one writes comes to the other, in
/// order, in the pieces that the schedule says; bytes for an end that takes no more are dropped, and a command that the
/// client refuses changes nothing. A server that opens the connection has to be able to: its settings name an endpoint,
/// and its ReverseHello has at most 8192 bytes. OPC 10000-6, 6.7 and 7.1.
///
/// The server is handed a beginning of what was asked, and each answer that the client accepts is the discovery answer to
/// its own request, or the abort in its place. While each token lives that a delivered MSG or CLO names, nothing is
/// refused, and once all that was sent is delivered each way, none is unanswered.
///
/// # Errors
///
/// `NoMemory` where a growth was refused; nothing of the story is given then.
pub fn converse(alloc: Global, setup: &Setup, schedule: &[Step]) -> Result<Story, NoMemory>
    requires channel { 0 < setup.now.channel_id }
    requires config { IsConfig setup.now.config }
    requires url { setup.now.reverse ≡ false → is_long setup.now.url.now ≡ false }
    requires reverse { setup.now.reverse ≡ true → reverse_fault setup.now.settings.now ≡ None }
    requires first_least { 1 ≤ setup.now.first_sequence }
    requires first_most { setup.now.first_sequence ≤ greatest_number }
    ensures asked { IfOk result (λ story. story.asked.items ≡ (told_of setup.now schedule.now).asked) }
    ensures handed { IfOk result (λ story. story.handed.items ≡ (told_of setup.now schedule.now).handed) }
    ensures answers { IfOk result (λ story. story.answers.items ≡ (told_of setup.now schedule.now).answers) }
    ensures up { IfOk result (λ story. story.up.items ≡ (told_of setup.now schedule.now).up) }
    ensures down { IfOk result (λ story. story.down.items ≡ (told_of setup.now schedule.now).down) }
    ensures server_end { IfOk result (λ story. story.server_end ≡ (told_of setup.now schedule.now).server_end) }
    ensures client_fault { IfOk result (λ story. story.client_fault ≡ (told_of setup.now schedule.now).client_fault) }

    // The law of both ends, of this story: the server is handed a beginning of what was asked, in order, and each answer is
    // the discovery answer to its own request, or the abort in its place.
    ensures in_order { IfOk result (λ story. IsPrefix story.handed.items story.asked.items) }
    ensures own { IfOk result (λ story. let s : Both = setup_of setup.now in let w : World = final s schedule.now in
        AnswersInOrder s (asked_in w.cmds) (served s w) story.answers.items) }

    // While the tokens live that are used, nothing is refused; and once all is delivered, none is unanswered.
    ensures unrefused { IfOk result (λ story. TokensLive (final (setup_of setup.now) schedule.now) →
        ((story.server_end ≡ None) ⊎ (story.server_end ≡ Some Closed)) × (story.client_fault ≡ None)) }
    ensures whole { IfOk result (λ story. let s : Both = setup_of setup.now in let w : World = final s schedule.now in TokensLive w → Delivered s w →
        (story.handed.items ≡ story.asked.items) × (length story.answers.items ≡ length story.asked.items)) }
{
    setup_is_in_range(setup);
    schedule_is_valid(schedule);
    let mut ends = Ends::begin(alloc, setup)?;
    match ends.run(schedule) {
        Ok(()) => Ok(ends.into_story()),
        Err(e) => {
            let_go(ends);
            Err(e)
        }
    }
}
