//! The command `ask`: asks a server over TCP for the servers that it knows, or for its endpoints.

ghost use Rattle.std.specs.Prelude.{◌≡◌, ◌⊎◌, ◌<◌, ◌≤◌, ◌-◌, ◌^◌, length, None, Err, IfOk, IfErr, IfSome};
ghost use Rattle.ua_command.specs.Ask.{IsAskStatus, IsReachStop, IsTalkStop};
ghost use Rattle.ua_command.specs.Stop.{IsFileStop};
ghost use Rattle.ua_command.specs.Why.{IsKnown};
ghost use Rattle.ua_command.specs.declared.why.Why.TheVariants.{Output as output_failed};

pub mod inquiry;
pub mod lines;
pub mod reaching;

use crate::ask::inquiry::{Inquiry, request_of, text_of};
use crate::ask::lines::{Outcome, lines_of};
use crate::ask::reaching::{ask_at, ask_caller};
use crate::run::told_and_noted;
use crate::stop::{Stop, print};
use crate::why::Why;
use std::alloc::Global;
use std::io::Write;
use std::net::Net;
use std::rt::Clock as HostClock;
use std::time::Duration;
use ua_chunk::CHUNK_HEADER;
use ua_conn::{Answer, AnswerResult, AskFault, Client, ClientConfig, ClientFault};
use ua_frame::LEAST_BUFFER;
use ua_link::{ClientTurn, Clock, Link, pump_client, send_output};
use ua_socket::{Deadline, Listener, connect};
use ua_value::plumbing::let_go;
use ua_value::{NoMemory, StatusCode};
use ua_words::{Form, Question};

/// The most reads until the answer.
const MOST_READS: u32 = 4096;

/// The bytes of a part of the request, which fits into the least buffer that a server may have.
const PART_LIMIT: u32 = LEAST_BUFFER - CHUNK_HEADER;

/// The limits of the client; its tokens live an hour.
const CONFIG: ClientConfig = ClientConfig {
    buffer: 65535,
    max_message: 0x10_0000,
    max_chunks: 64,
    lifetime: 3_600_000,
};

/// A client that greets the server by this url, or without one waits until the server says by which.
fn client_of(alloc: Global, url: Option<&str>) -> Result<Client, NoMemory>
    requires { IfSome url (λ url. length url.now ≤ 4095) }
{
    match url {
        Some(url) => {
            let url = text_of(alloc, url)?;
            Client::new(alloc, CONFIG, &url, 1)
        }
        None => Client::new_reverse(alloc, CONFIG, 1),
    }
}

/// That the channel is not open yet, or else why the question is refused.
fn not_asked(fault: AskFault) -> Result<bool, AskFault> {
    match fault {
        AskFault::NotOpen => Ok(false),
        fault => Err(fault),
    }
}

/// Asks, where the channel is open, and says whether it was.
fn is_asked(
    alloc: Global,
    client: &mut Client,
    now: i64,
    inquiry: &Inquiry,
    url: Option<&str>,
) -> Result<bool, AskFault> {
    let request = request_of(alloc, now, inquiry, url)?;
    match client.ask(now, request, PART_LIMIT) {
        Ok(_) => Ok(true),
        Err((fault, request)) => {
            let_go(request);
            not_asked(fault)
        }
    }
}

/// What a fault of the client is to the command.
fn of_fault(fault: ClientFault) -> Result<Outcome, Stop>
    ensures { IfErr result IsTalkStop }
{
    match fault {
        ClientFault::ServerSaid(status, reason) => Ok(Outcome::Said(status, reason)),
        ClientFault::Broken(status) => Ok(Outcome::Broken(status)),
        ClientFault::NoMemory => Err(Stop::NoMemory),
        ClientFault::Ended => Err(Stop::Link),
    }
}

/// What a refused question is to the command.
fn of_refusal(fault: AskFault) -> Result<Outcome, Stop>
    ensures { IfErr result IsTalkStop }
{
    match fault {
        AskFault::NoMemory => Err(Stop::NoMemory),
        fault => Ok(Outcome::NotAsked(fault)),
    }
}

/// Closes the channel, and sends this as far as the link goes.
fn close<L: Link>(client: &mut Client, link: &mut L, now: i64)
    requires { L.fault_count link.old < 2 ^ 64 - 1 }
{
    if client.close(now).is_ok() {
        let _ = send_output(client, link);
    }
}

/// What an answer is to the command.
fn of_answer(answer: Answer) -> Outcome {
    let Answer {
        id: _,
        request,
        result,
    } = answer;
    let_go(request);
    match result {
        AnswerResult::Response(response) => Outcome::Answered(response),
        AnswerResult::Aborted(status) => Outcome::Aborted(status),
    }
}

/// What came of the first of the answers, if there is one.
fn outcome_of(mut answers: Vec<Answer>) -> Option<Outcome> {
    let answer = answers.pop();
    let_go(answers);
    Some(of_answer(answer?))
}

/// What one turn of the client brought: what came of the question, or nothing yet.
fn turn<L: Link, C: Clock>(
    client: &mut Client,
    link: &mut L,
    clock: &mut C,
) -> Result<Option<Outcome>, Stop>
    requires { L.fault_count link.old < 2 ^ 64 - 1 }
    ensures stop { IfErr result IsTalkStop }
    ensures counted { IfOk result (λ outcome. outcome ≡ None → L.fault_count link.new ≡ L.fault_count link.old) }
{
    match pump_client(client, link, clock) {
        ClientTurn::Answers(answers) => {
            let outcome = outcome_of(answers);
            if outcome.is_some() {
                close(client, link, clock.now());
            }
            Ok(outcome)
        }
        ClientTurn::InputEnded | ClientTurn::LinkFailed => Err(Stop::Link),
        ClientTurn::Fault(fault) => match of_fault(fault) {
            Ok(outcome) => Ok(Some(outcome)),
            Err(stop) => Err(stop),
        },
    }
}

/// Talks with the server until it answers.
fn talk<L: Link, C: Clock>(
    alloc: Global,
    client: &mut Client,
    link: &mut L,
    clock: &mut C,
    inquiry: &Inquiry,
    url: Option<&str>,
) -> Result<Outcome, Stop>
    requires { L.fault_count link.old < 2 ^ 64 - 1 }
    ensures { IfErr result IsTalkStop }
{
    let mut asked = false;
    'reads: for _ in 0..MOST_READS {
        match turn(client, link, clock) {
            Ok(None) => {}
            Ok(Some(outcome)) => return Ok(outcome),
            Err(stop) => return Err(stop),
        }
        if !asked {
            match is_asked(alloc, client, clock.now(), inquiry, url) {
                Ok(is) => asked = is,
                Err(fault) => return of_refusal(fault),
            }
        }
    }
    Err(Stop::Link)
}

/// Talks with the server as a new client.
pub fn talk_anew<L: Link, C: Clock>(
    alloc: Global,
    link: &mut L,
    clock: &mut C,
    inquiry: &Inquiry,
    url: Option<&str>,
) -> Result<Outcome, Stop>
    requires url { IfSome url (λ url. length url.now ≤ 4095) }
    requires countable { L.fault_count link.old < 2 ^ 64 - 1 }
    ensures { IfErr result IsTalkStop }
{
    let Ok(mut client) = client_of(alloc, url) else {
        return Err(Stop::NoMemory);
    };
    let came = talk(alloc, &mut client, link, clock, inquiry, url);
    let_go(client);
    came
}

/// The number of a reason why the question was refused.
fn number_of(fault: AskFault) -> u8 {
    match fault {
        AskFault::NotOpen => 1,
        AskFault::TooLarge => 2,
        AskFault::TooManyPending => 3,
        AskFault::IdsSpent => 4,
        AskFault::RenewPending => 5,
        AskFault::StillPending => 6,
        AskFault::Ended => 7,
        AskFault::NoMemory => 8,
        AskFault::BadPartLimit => 9,
    }
}

/// Prints what came of the question, and gives the exit status.
fn tell_outcome<O: Write, E: Write>(
    alloc: Global,
    outcome: &Outcome,
    form: Form,
    output: &mut O,
    errors: &mut E,
) -> Result<u8, Stop>
    ensures status { IfOk result (λ status. (status ≡ 0) ⊎ (status ≡ 1)) }
    ensures stop { IfErr result IsFileStop }
{
    if let Outcome::NotAsked(fault) = outcome {
        let number = number_of(*fault);
        let _ = writeln!(errors, "not asked {number}");
        return Ok(1);
    }
    let Ok(text) = lines_of(alloc, outcome, form) else {
        return Err(Stop::NoMemory);
    };
    print(output, text.as_str())?;
    match outcome {
        Outcome::Answered(_) if !outcome.is_fault() => Ok(0),
        _ => Ok(1),
    }
}

/// Tells what came of the question, and gives the exit status, also where that can't be printed, as `why` says then.
pub fn status_of<O: Write, E: Write>(
    alloc: Global,
    outcome: &Outcome,
    form: Form,
    output: &mut O,
    errors: &mut E,
    why: &mut Why,
) -> u8
    ensures status { IsAskStatus result }
    ensures said { result ≡ 3 → why.new ≡ output_failed }
{
    match tell_outcome(alloc, outcome, form, output, errors) {
        Ok(status) => status,
        Err(stop) => told_and_noted(&stop, errors, why),
    }
}

/// Asks a server over a link, which the client calls by the url of at most 4095 bytes: opens a channel, asks, and closes
/// the channel after the answer. Without a url the client waits for the server's ReverseHello, calls it by the url that
/// this says, and names none in its request. The answer is printed in the lines that are always there.
///
/// The result is the exit status: 0 for an answer; 1 for a fault, an abort, an error of the server or a frame that the
/// client refuses, which is printed, and where the server takes no such request, which is told on `errors`; 3 where the
/// link fails or ends before, 4096 reads bring no answer, or the answer can't be printed, as `why` says then; 4 for want of
/// memory. Fewer than 2^64 - 1 calls of the link failed before.
pub fn ask_over<L: Link, C: Clock, O: Write, E: Write>(
    alloc: Global,
    link: &mut L,
    clock: &mut C,
    question: Question,
    url: Option<&str>,
    output: &mut O,
    errors: &mut E,
    why: &mut Why,
) -> u8
    requires url { IfSome url (λ url. length url.now ≤ 4095) }
    requires countable { L.fault_count link.old < 2 ^ 64 - 1 }
    ensures { IsAskStatus result }
{
    let inquiry = Inquiry::plain(question);
    ask_as(alloc, link, clock, &inquiry, url, output, errors, why)
}

/// Asks a server over a link in the same way, with the locales, the filter and the form of an inquiry.
pub fn ask_as<L: Link, C: Clock, O: Write, E: Write>(
    alloc: Global,
    link: &mut L,
    clock: &mut C,
    inquiry: &Inquiry,
    url: Option<&str>,
    output: &mut O,
    errors: &mut E,
    why: &mut Why,
) -> u8
    requires url { IfSome url (λ url. length url.now ≤ 4095) }
    requires countable { L.fault_count link.old < 2 ^ 64 - 1 }
    ensures { IsAskStatus result }
{
    match talk_anew(alloc, link, clock, inquiry, url) {
        Ok(outcome) => {
            let status = status_of(alloc, &outcome, inquiry.form, output, errors, why);
            let_go(outcome);
            status
        }
        Err(stop) => told_and_noted(&stop, errors, why),
    }
}

/// What is known of a status that came in the place of an answer.
pub fn why_of(outcome: &Outcome) -> Why {
    match outcome.status() {
        Some(status) => Why::Status(StatusCode(status)),
        None => Why::Unknown,
    }
}

/// Connects to the address, and asks the server there. Without a url it listens at the address, tells on `errors` which
/// one it is, and asks the server that comes there first. All of that is given so many seconds, but for looking up the
/// name of a host; once they are over, the link fails.
///
/// `Link` says that nobody listens at the address, or that nothing can, and `NoMemory` that a growth was refused; nothing
/// is printed then. What is known of a link that failed, or that the answer can't be printed, stands in `why`.
pub fn ask<R, O, E>(
    rt: &R,
    inquiry: &Inquiry,
    address: &str,
    url: Option<&str>,
    seconds: u32,
    output: &mut O,
    errors: &mut E,
    why: &mut Why,
) -> Result<u8, Stop>
where
    R: Net + HostClock + AllocGlobal,
    O: Write,
    E: Write,
    requires { IfSome url (λ url. length url.now ≤ 4095) }
    ensures ok { IfOk result IsAskStatus }
    ensures err { IfErr result IsReachStop }
    ensures known { IfOk result (λ status. status ≡ 3 → IsKnown why.new) }
    ensures unlinked { result ≡ Err Stop.Link → IsKnown why.new }
    ensures quiet { IfErr result (λ _. O.contents output.new ≡ O.contents output.old) }
    ensures untold { IfErr result (λ _. E.contents errors.new ≡ E.contents errors.old) }
{
    let mut deadline = Deadline::new(rt, Duration::from_secs(u64::from(seconds)));
    match url {
        Some(url) => {
            let socket = connect(rt, rt.alloc(), address, &mut deadline);
            ask_at(
                rt, socket, deadline, seconds, inquiry, url, output, errors, why,
            )
        }
        None => {
            let listener = Listener::bind(rt, rt.alloc(), address);
            ask_caller(
                rt, listener, deadline, seconds, inquiry, output, errors, why,
            )
        }
    }
}
