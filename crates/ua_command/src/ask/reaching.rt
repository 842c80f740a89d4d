//! The question over a stream: of a connection that was made, or of one that comes to a listener.

ghost use Rattle.std.specs.Prelude.{◌≡◌, ◌≤◌, length, Err, IsOk, IfOk, IfErr, IfSome, MatchResult};
ghost use Rattle.ua_command.specs.Ask.{IsAskStatus, IsReachStop, IsTalkStop, stop_of_reason};
ghost use Rattle.ua_command.specs.Why.{IsKnown};

use crate::ask::inquiry::Inquiry;
use crate::ask::lines::Outcome;
use crate::ask::{status_of, talk_anew, why_of as why_of_outcome};
use crate::run::{told, told_and_noted};
use crate::stop::Stop;
use crate::why::{Broken, Why};
use std::io::Write;
use std::net::Net;
use std::rt::Clock as HostClock;
use std::time::Duration;
use ua_link::MachineClock;
use ua_socket::{Deadline, Listener, Reason, Stream, TimedLink, Timer};
use ua_value::plumbing::let_go;

/// What a reason is to the command.
pub fn stop_of(reason: Reason) -> Stop
    ensures { result ≡ stop_of_reason reason }
{
    match reason {
        Reason::NoMemory => Stop::NoMemory,
        _ => Stop::Link,
    }
}

/// How the connection failed or ended before the answer, or else that all of its reads brought none.
fn why_without<S, T>(link: &TimedLink<S, T>) -> Why
    ensures { IsKnown result }
{
    if link.reason.is_none() && !link.ended {
        return Why::Unanswered(link.received);
    }
    Why::Broken(Broken {
        reason: link.reason,
        received: link.received,
        quiet: link.quiet,
    })
}

/// What is known of what came of a question over a link: of an answer only its status matters, and not how the link fared
/// behind it.
fn why_of<S, T>(link: &TimedLink<S, T>, came: &Result<Outcome, Stop>) -> Why
    ensures { came.now ≡ Err Stop.Link → IsKnown result }
{
    match came {
        Ok(outcome) => why_of_outcome(outcome),
        Err(Stop::NoMemory) => Why::Unknown,
        Err(_) => why_without(link),
    }
}

/// Talks with the server at the other end of a stream within so many seconds, of which the timer says what is left; the
/// stream is closed then. What is known of a link that failed, or of a status in the place of an answer, stands in `why`.
pub fn talk_through<R, S, T>(
    rt: &R,
    stream: S,
    timer: T,
    seconds: u32,
    inquiry: &Inquiry,
    url: Option<&str>,
    why: &mut Why,
) -> Result<Outcome, Stop>
where
    R: HostClock + AllocGlobal,
    S: Stream + Drop,
    T: Timer + Drop,
    requires { IfSome url (λ url. length url.now ≤ 4095) }
    ensures stop { IfErr result IsTalkStop }
    ensures known { result ≡ Err Stop.Link → IsKnown why.new }
{
    let mut link = TimedLink::new(stream, timer, Duration::from_secs(u64::from(seconds)));
    let mut clock = MachineClock::new(rt);
    let came = talk_anew(rt.alloc(), &mut link, &mut clock, inquiry, url);
    *why = why_of(&link, &came);
    came
}

/// Asks the server at the other end of a stream in the same way, and prints what came of it.
fn ask_stream<R, S, T, O, E>(
    rt: &R,
    stream: S,
    timer: T,
    seconds: u32,
    inquiry: &Inquiry,
    url: Option<&str>,
    output: &mut O,
    errors: &mut E,
    why: &mut Why,
) -> u8
where
    R: HostClock + AllocGlobal,
    S: Stream + Drop,
    T: Timer + Drop,
    O: Write,
    E: Write,
    requires { IfSome url (λ url. length url.now ≤ 4095) }
    ensures status { IsAskStatus result }
    ensures known { result ≡ 3 → IsKnown why.new }
{
    match talk_through(rt, stream, timer, seconds, inquiry, url, why) {
        Ok(outcome) => {
            let status = status_of(rt.alloc(), &outcome, inquiry.form, output, errors, why);
            let_go(outcome);
            status
        }
        Err(stop) => told_and_noted(&stop, errors, why),
    }
}

/// Asks the server at the other end of a stream. Where there is no stream the stop says so, and nothing else is told.
pub fn ask_at<R, S, T, O, E>(
    rt: &R,
    stream: Result<S, Reason>,
    timer: T,
    seconds: u32,
    inquiry: &Inquiry,
    url: &str,
    output: &mut O,
    errors: &mut E,
    why: &mut Why,
) -> Result<u8, Stop>
where
    R: HostClock + AllocGlobal,
    S: Stream + Drop,
    T: Timer + Drop,
    O: Write,
    E: Write,
    requires { length url.now ≤ 4095 }
    ensures reached { MatchResult stream (λ _. IsOk result) (λ reason. result ≡ Err (stop_of_reason reason)) }
    ensures ok { IfOk result IsAskStatus }
    ensures err { IfErr result IsReachStop }
    ensures known { IfOk result (λ status. status ≡ 3 → IsKnown why.new) }
    ensures unlinked { result ≡ Err Stop.Link → IsKnown why.new }
    ensures quiet { IfErr result (λ _. O.contents output.new ≡ O.contents output.old) }
    ensures untold { IfErr result (λ _. E.contents errors.new ≡ E.contents errors.old) }
{
    match stream {
        Ok(stream) => Ok(ask_stream(
            rt,
            stream,
            timer,
            seconds,
            inquiry,
            Some(url),
            output,
            errors,
            why,
        )),
        Err(reason) => {
            *why = Why::NotReached(reason, seconds);
            Err(stop_of(reason))
        }
    }
}

/// Tells at which address a listener listens; a failed write is passed over.
fn tell_local<E: Write>(listener: &Listener, errors: &mut E) {
    if let Ok(address) = listener.local_addr() {
        let _ = writeln!(errors, "listening {address}");
        let _ = errors.flush();
    }
}

/// Asks the server that comes to a listener first, within what is left of so many seconds; no other one is let in. That
/// none came, or could be accepted, is told.
fn ask_first<R, O, E>(
    rt: &R,
    mut listener: Listener,
    mut deadline: Deadline<R>,
    seconds: u32,
    inquiry: &Inquiry,
    output: &mut O,
    errors: &mut E,
    why: &mut Why,
) -> u8
where
    R: Net + HostClock + AllocGlobal,
    O: Write,
    E: Write,
    ensures status { IsAskStatus result }
    ensures known { result ≡ 3 → IsKnown why.new }
{
    tell_local(&listener, errors);
    let came = listener.accept(rt, rt.alloc(), &mut deadline);
    let_go(listener);
    match came {
        Ok(socket) => ask_stream(
            rt, socket, deadline, seconds, inquiry, None, output, errors, why,
        ),
        Err(reason) => {
            *why = Why::NobodyCame(reason, seconds);
            told(&stop_of(reason), errors)
        }
    }
}

/// Asks the server that comes to a listener. Where there is no listener the stop says so, and nothing else is told.
pub fn ask_caller<R, O, E>(
    rt: &R,
    listener: Result<Listener, Reason>,
    deadline: Deadline<R>,
    seconds: u32,
    inquiry: &Inquiry,
    output: &mut O,
    errors: &mut E,
    why: &mut Why,
) -> Result<u8, Stop>
where
    R: Net + HostClock + AllocGlobal,
    O: Write,
    E: Write,
    ensures bound { MatchResult listener (λ _. IsOk result) (λ reason. result ≡ Err (stop_of_reason reason)) }
    ensures ok { IfOk result IsAskStatus }
    ensures err { IfErr result IsReachStop }
    ensures known { IfOk result (λ status. status ≡ 3 → IsKnown why.new) }
    ensures unlinked { result ≡ Err Stop.Link → IsKnown why.new }
    ensures quiet { IfErr result (λ _. O.contents output.new ≡ O.contents output.old) }
    ensures untold { IfErr result (λ _. E.contents errors.new ≡ E.contents errors.old) }
{
    match listener {
        Ok(listener) => Ok(ask_first(
            rt, listener, deadline, seconds, inquiry, output, errors, why,
        )),
        Err(reason) => {
            *why = Why::NotListening(reason);
            Err(stop_of(reason))
        }
    }
}
