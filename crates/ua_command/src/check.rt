//! The command `check`: asks a server for all that it offers, and lays it beside settings.

ghost use Rattle.std.specs.Prelude.{◌≡◌, ◌<◌, ◌≤◌, ◌-◌, ◌^◌, ◌↔◌, length, Err, IfOk, IfErr, IsTrue};
ghost use Rattle.ua_command.specs.Ask.{IsAskStatus, IsTalkStop};
ghost use Rattle.ua_command.specs.Check.{AreSame, listed};
ghost use Rattle.ua_command.specs.Stop.{IsSettingsStop};
ghost use Rattle.ua_command.specs.Why.{IsKnown};
ghost use Rattle.ua_command.specs.declared.why.Why.TheVariants.{Output as output_failed};

use crate::ask::inquiry::{Inquiry, request_of};
use crate::ask::lines::Outcome;
use crate::ask::reaching::{stop_of, talk_through};
use crate::ask::{status_of, talk_anew};
use crate::run::{told, told_and_noted};
use crate::settings::settings_in;
use crate::stop::{Stop, print};
use crate::why::Why;
use std::alloc::Global;
use std::io::Write;
use std::net::Net;
use std::rt::{Clock as HostClock, Files};
use std::time::Duration;
use ua_compare::{add_application_differences, add_endpoint_differences};
use ua_disco::{Settings, answer};
use ua_link::{Clock, Link};
use ua_service::{
    ApplicationDescription, EndpointDescription, FindServersResponse, GetEndpointsResponse,
    Response,
};
use ua_socket::{Deadline, connect};
use ua_value::NoMemory;
use ua_value::plumbing::let_go;
use ua_words::{Form, Question, Source};

/// A server that is asked, the settings beside which it is laid, and the time of each question.
#[derive(Clone, Copy)]
pub struct Machine<'a> {
    pub address: &'a str,
    pub url: &'a str,
    pub seconds: u32,
}

/// Connects to the server, and asks it.
fn asked<R>(rt: &R, machine: Machine, question: Question, why: &mut Why) -> Result<Outcome, Stop>
where
    R: Net + HostClock + AllocGlobal,
    requires { length machine.url.now ≤ 4095 }
    ensures stop { IfErr result IsTalkStop }
    ensures known { result ≡ Err Stop.Link → IsKnown why.new }
{
    let seconds = machine.seconds;
    let mut deadline = Deadline::new(rt, Duration::from_secs(u64::from(seconds)));
    match connect(rt, rt.alloc(), machine.address, &mut deadline) {
        Ok(stream) => {
            let inquiry = Inquiry::plain(question);
            let url = Some(machine.url);
            talk_through(rt, stream, deadline, seconds, &inquiry, url, why)
        }
        Err(reason) => {
            *why = Why::NotReached(reason, seconds);
            Err(stop_of(reason))
        }
    }
}

/// What a server by the settings answers to the question.
fn wanted(
    alloc: Global,
    settings: &Settings,
    question: Question,
    url: &str,
) -> Result<Response, NoMemory> {
    let request = request_of(alloc, 0, &Inquiry::plain(question), Some(url))?;
    let response = answer(alloc, settings, &request, 0);
    let_go(request);
    response
}

/// The applications of an answer; none where it has no list.
fn applications(answer: &FindServersResponse) -> &[ApplicationDescription]
    ensures { result.now ≡ listed answer.now.servers }
{
    match answer.servers.get() {
        Some(applications) => applications,
        None => &[],
    }
}

/// The endpoints of an answer; none where it has no list.
fn endpoints(answer: &GetEndpointsResponse) -> &[EndpointDescription]
    ensures { result.now ≡ listed answer.now.endpoints }
{
    match answer.endpoints.get() {
        Some(endpoints) => endpoints,
        None => &[],
    }
}

/// Adds a line for each difference between two answers to one question, and says whether there is none.
fn add_beside(
    alloc: Global,
    wanted: &Response,
    found: &Response,
    text: &mut String,
) -> Result<bool, NoMemory>
    ensures { IfOk result (λ same. IsTrue same ↔ AreSame wanted.now found.now) }
{
    match (wanted, found) {
        (Response::FindServers(wanted), Response::FindServers(found)) => {
            add_application_differences(alloc, applications(wanted), applications(found), text)
        }
        (Response::GetEndpoints(wanted), Response::GetEndpoints(found)) => {
            add_endpoint_differences(alloc, endpoints(wanted), endpoints(found), text)
        }
        _ => Ok(false),
    }
}

/// Adds the lines of what differs in an answer from that of the settings, and says whether nothing does.
fn add_differences(
    alloc: Global,
    settings: &Settings,
    question: Question,
    url: &str,
    found: &Response,
    text: &mut String,
) -> Result<bool, NoMemory> {
    let wanted = wanted(alloc, settings, question, url)?;
    let same = add_beside(alloc, &wanted, found, text);
    let_go(wanted);
    same
}

/// Prints what differs in an answer from that of the settings, and gives the exit status: 0 where nothing does, else 1.
fn tell_differences<O: Write, E: Write>(
    alloc: Global,
    settings: &Settings,
    question: Question,
    url: &str,
    found: &Response,
    output: &mut O,
    errors: &mut E,
    why: &mut Why,
) -> u8
    ensures status { IsAskStatus result }
    ensures said { result ≡ 3 → why.new ≡ output_failed }
{
    let mut text = String::new(alloc);
    let same = add_differences(alloc, settings, question, url, found, &mut text);
    let Ok(same) = same else {
        return told(&Stop::NoMemory, errors);
    };
    match print(output, text.as_str()) {
        Ok(()) => u8::from(!same),
        Err(stop) => told_and_noted(&stop, errors, why),
    }
}

/// Tells what came of a question: what differs in an answer, or what came in its place, as `ask` does.
fn tell_beside<O: Write, E: Write>(
    alloc: Global,
    settings: &Settings,
    question: Question,
    url: &str,
    outcome: &Outcome,
    output: &mut O,
    errors: &mut E,
    why: &mut Why,
) -> u8
    ensures status { IsAskStatus result }
    ensures said { result ≡ 3 → why.new ≡ output_failed }
{
    match outcome {
        Outcome::Answered(found) if !outcome.is_fault() => {
            tell_differences(alloc, settings, question, url, found, output, errors, why)
        }
        _ => status_of(alloc, outcome, Form::Lines, output, errors, why),
    }
}

/// Tells what came of a question, or why nothing did.
fn tell_came<O: Write, E: Write>(
    alloc: Global,
    settings: &Settings,
    question: Question,
    url: &str,
    came: Result<Outcome, Stop>,
    output: &mut O,
    errors: &mut E,
    why: &mut Why,
) -> u8
    requires { IfErr came IsTalkStop }
    ensures status { IsAskStatus result }
    ensures known { (came ≡ Err Stop.Link → IsKnown why.old) → result ≡ 3 → IsKnown why.new }
{
    match came {
        Ok(outcome) => {
            let status = tell_beside(
                alloc, settings, question, url, &outcome, output, errors, why,
            );
            let_go(outcome);
            status
        }
        Err(stop) => told_and_noted(&stop, errors, why),
    }
}

/// Asks one question over a link, which the client calls by a url of at most 4095 bytes, and prints a line for each
/// difference of the answer from that of a server by the settings. The result is the exit status, as that of [`check`];
/// where the lines can't be printed, `why` says so. Fewer than 2^64 - 1 calls of the link failed before.
pub fn check_over<L: Link, C: Clock, O: Write, E: Write>(
    alloc: Global,
    settings: &Settings,
    link: &mut L,
    clock: &mut C,
    question: Question,
    url: &str,
    output: &mut O,
    errors: &mut E,
    why: &mut Why,
) -> u8
    requires url { length url.now ≤ 4095 }
    requires countable { L.fault_count link.old < 2 ^ 64 - 1 }
    ensures { IsAskStatus result }
{
    let inquiry = Inquiry::plain(question);
    let came = talk_anew(alloc, link, clock, &inquiry, Some(url));
    tell_came(alloc, settings, question, url, came, output, errors, why)
}

/// Asks one question, and lays the answer beside that of the settings.
fn check_one<R, O, E>(
    rt: &R,
    settings: &Settings,
    machine: Machine,
    question: Question,
    output: &mut O,
    errors: &mut E,
    why: &mut Why,
) -> u8
where
    R: Net + HostClock + AllocGlobal,
    O: Write,
    E: Write,
    requires { length machine.url.now ≤ 4095 }
    ensures status { IsAskStatus result }
    ensures known { result ≡ 3 → IsKnown why.new }
{
    let came = asked(rt, machine, question, why);
    tell_came(
        rt.alloc(),
        settings,
        question,
        machine.url,
        came,
        output,
        errors,
        why,
    )
}

/// Asks both questions, and gives the exit status: that of the first where it came to nothing, else the worse of both.
/// `why` goes with that status.
fn check_both<R, O, E>(
    rt: &R,
    settings: &Settings,
    machine: Machine,
    output: &mut O,
    errors: &mut E,
    why: &mut Why,
) -> u8
where
    R: Net + HostClock + AllocGlobal,
    O: Write,
    E: Write,
    requires { length machine.url.now ≤ 4095 }
    ensures status { IsAskStatus result }
    ensures known { result ≡ 3 → IsKnown why.new }
{
    let first = check_one(rt, settings, machine, Question::Find, output, errors, why);
    if first > 1 {
        return first;
    }
    let known = *why;
    let second = check_one(
        rt,
        settings,
        machine,
        Question::Endpoints,
        output,
        errors,
        why,
    );
    if second > 0 {
        return second;
    }
    *why = known;
    first
}

/// Asks the server at an address, which the client calls by a url of at most 4095 bytes, for the servers that it knows
/// and for its endpoints (OPC 10000-4, 5.5.2 and 5.5.4), each over a connection of its own and within so many seconds, and
/// prints a line for each difference from what a server by the settings answers.
///
/// The exit status is 0 where there is no difference, and 1 where there is one, or where something came in the place of
/// an answer, which is printed as by `ask`; 3 where there is no connection, the link fails or ends, or the lines can't be
/// printed; 4 for want of memory. Behind a question that came to nothing the other one is not asked. What is known of that
/// stands in `why`. The settings are read first, and nothing is asked or printed where they stop the command.
pub fn check<R, O, E>(
    rt: &R,
    source: &Source,
    machine: Machine,
    output: &mut O,
    errors: &mut E,
    why: &mut Why,
) -> Result<u8, Stop>
where
    R: Files + Net + HostClock + AllocGlobal,
    O: Write,
    E: Write,
    requires { length machine.url.now ≤ 4095 }
    ensures ok { IfOk result IsAskStatus }
    ensures err { IfErr result (IsSettingsStop source.now) }
    ensures known { IfOk result (λ status. status ≡ 3 → IsKnown why.new) }
    ensures quiet { IfErr result (λ _. O.contents output.new ≡ O.contents output.old) }
    ensures untold { IfErr result (λ _. E.contents errors.new ≡ E.contents errors.old) }
{
    let settings = settings_in(rt, source)?;
    let status = check_both(rt, &settings, machine, output, errors, why);
    let_go(settings);
    Ok(status)
}
