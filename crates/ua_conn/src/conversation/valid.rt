//! What the types of a setup and of a schedule say of them: their texts are UTF-8, and their numbers fit.

ghost use Rattle.std.specs.Prelude.{◌≡◌, ◌≤◌, ◌<◌, true, false, None};
ghost use Rattle.ua_frame.specs.Hello.{is_long};
ghost use Rattle.ua_chunk.specs.Numbers.{greatest_number};
ghost use Rattle.ua_conn.specs.BothEnds.{IsConfig, IsSchedule, IsSetup, IsStep};
ghost use Rattle.ua_conn.specs.Conversing.{setup_of};
ghost use Rattle.ua_conn.specs.server.Greeting.{reverse_fault};

use crate::schedule::Step;
use crate::story::Setup;
use ua_frame::moment_at;
use ua_service::Body;
use ua_value::Wire;

/// A setup that meets what `converse` asks for is in all its ranges.
pub(crate) fn setup_is_in_range(setup: &Setup)
    requires channel { 0 < setup.now.channel_id }
    requires config { IsConfig setup.now.config }
    requires url { setup.now.reverse ≡ false → is_long setup.now.url.now ≡ false }
    requires reverse { setup.now.reverse ≡ true → reverse_fault setup.now.settings.now ≡ None }
    requires first_least { 1 ≤ setup.now.first_sequence }
    requires first_most { setup.now.first_sequence ≤ greatest_number }
    ensures { IsSetup (setup_of setup.now) }
{
    let _settings = setup.settings.limits();
    let _channel = setup.channel_id;
    let _url = setup.url.len();
    let _start = moment_at(setup.start);
}

fn step_is_valid(step: &Step)
    ensures { IsStep step.now }
{
    match step {
        Step::Ask(request, _) => {
            let _len = request.body_len();
        }
        Step::Renew | Step::Close | Step::Tick(_) | Step::Up(_) | Step::Down(_) => {}
    }
}

/// Each request that is asked is a value.
pub(crate) fn schedule_is_valid(schedule: &[Step])
    ensures { IsSchedule schedule.now }
{
    for step in schedule {
        step_is_valid(step);
    }
}
