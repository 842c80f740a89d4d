//! The command `serve` with several connections at one time.

ghost use Rattle.std.specs.Prelude.{◌≡◌, ◌⊎◌, false, length, Err, IsOk, IfOk, IfErr, IsErrAnd, MatchResult};
ghost use Rattle.ua_serve.specs.Turn.{seen_by};
ghost use Rattle.ua_serve.specs.Rounds.{Rounds};
ghost use Rattle.ua_command.specs.Serve.{IsBindStop, IsServeStatus, IsServeStop, IsUnbound, Serves};
ghost use Rattle.ua_command.specs.Why.{IsKnown};

use crate::ending::Ending;
use crate::run::{told, told_and_noted};
use crate::serve::{note, print_ended, status_with};
use crate::settings::settings_in;
use crate::stop::Stop;
use crate::why::Why;
use std::alloc::Global;
use std::io::{ErrorKind, Write};
use std::net::Net;
use std::rt::{Clock as HostClock, Files};
use std::{fmt, io};
use ua_disco::Settings;
use ua_link::{Clock, MachineClock, Over, ReadyLink, SteadyClock};
use ua_serve::{Connections, Parted, Sockets, Step, TcpSockets};
use ua_value::plumbing::let_go;
use ua_words::Source;

/// The ticks of 100 ns in a second.
const SECOND: u64 = 10_000_000;

/// How many connections are served, how many of them at one time, and the seconds for which a client may be quiet.
#[derive(Clone, Copy, Debug)]
pub struct Crowd {
    pub connections: u32,
    pub at_once: u32,
    pub patience: u32,
}

/// How a connection was over, as the command prints it.
#[derive(Clone, Copy)]
struct Parting(Over);

impl fmt::Display for Parting {
    fn fmt<W: fmt::Write>(&self, f: &mut fmt::Formatter<W>) -> fmt::Result {
        match self.0 {
            Over::Ended(end) => write!(f, "{}", Ending(end)),
            Over::TimedOut => f.write_str("timed-out"),
        }
    }
}

/// The exit status after one more connection. One that patience ended is no fault.
fn status_after(status: u8, over: Over) -> u8
    requires { IsServeStatus status }
    ensures { IsServeStatus result }
{
    match over {
        Over::Ended(end) => status_with(status, end),
        Over::TimedOut => status,
    }
}

/// Prints the line of a connection at once.
fn print_parted<O: Write>(output: &mut O, parted: Parted) -> Result<(), Stop>
    ensures { IfErr result (λ stop. stop ≡ Stop.File) }
{
    let Parted {
        id,
        over,
        read,
        written,
    } = parted;
    print_ended(output, id, Parting(over), read, u128::from(written))
}

/// Tells how often nobody could be accepted; a failed write is passed over.
fn tell_failure<E: Write>(errors: &mut E, count: u64) {
    let _ = writeln!(errors, "not accepted {count}");
    let _ = errors.flush();
}

/// Gives each place one step, in their order, and the exit status of what came of them and before. Where the stop is a link,
/// `why` says that nobody could be accepted.
fn round<'a, L, S, C, T, O, E>(
    connections: &mut Connections<'a, L>,
    sockets: &mut S,
    clock: &mut C,
    timer: &mut T,
    status: u8,
    output: &mut O,
    errors: &mut E,
    why: &mut Why,
) -> Result<u8, Stop>
where
    L: ReadyLink + Drop,
    S: Sockets<Link = L>,
    C: Clock,
    T: Clock,
    O: Write,
    E: Write,
    requires { IsServeStatus status }
    ensures round { IfOk result (λ _. Rounds (seen_by L.input L.output L.fault_count) L.tried (length connections.old.places) (C.answered clock.old) (C.answered clock.new) (T.answered timer.old) (T.answered timer.new) (S.sought sockets.old) (S.sought sockets.new) connections.old connections.new) }
    ensures status { IfOk result IsServeStatus }
    ensures stop { IfErr result (λ stop. (stop ≡ Stop.File) ⊎ (stop ≡ Stop.Link)) }
    ensures known { result ≡ Err Stop.Link → IsKnown why.new }
{
    let mut status = status;
    'places: for place in 0..connections.places() {
        match connections.step(sockets, clock, timer, place) {
            Step::Quiet => {}
            Step::Parted(parted) => {
                status = status_after(status, parted.over);
                print_parted(output, parted)?;
            }
            Step::NotAccepted(count) => tell_failure(errors, count),
            Step::Failed => {
                *why = Why::NoneAccepted;
                return Err(Stop::Link);
            }
        }
    }
    Ok(status)
}

/// Rounds until all connections were served, and the exit status of their ends. Where the stop is a link, `why` says how
/// it failed.
fn rounds<'a, L, S, C, T, O, E>(
    connections: &mut Connections<'a, L>,
    sockets: &mut S,
    clock: &mut C,
    timer: &mut T,
    output: &mut O,
    errors: &mut E,
    why: &mut Why,
) -> Result<u8, Stop>
where
    L: ReadyLink + Drop,
    S: Sockets<Link = L>,
    C: Clock,
    T: Clock,
    O: Write,
    E: Write,
    ensures status { IfOk result IsServeStatus }
    ensures stop { IfErr result (λ stop. (stop ≡ Stop.File) ⊎ (stop ≡ Stop.Link)) }
    ensures known { result ≡ Err Stop.Link → IsKnown why.new }
{
    let mut status = 0;
    'rounds: for _ in 0..u64::MAX {
        if connections.is_done() {
            return Ok(status);
        }
        if connections.wait(sockets, timer).is_err() {
            *why = Why::NotWaited;
            return Err(Stop::Link);
        }
        status = round(
            connections,
            sockets,
            clock,
            timer,
            status,
            output,
            errors,
            why,
        )?;
    }
    *why = Why::NotWaited;
    Err(Stop::Link)
}

/// Serves so many connections of these sockets by the settings, several at one time; their channels have the ids from 1
/// on. Each one's line is printed as it ends, with `timed-out` where patience with its client came to its end
/// ([`ua_link::ServerConnection::turn`]), which goes by the steady clock `timer`; `clock` says the moments of the protocol. A
/// connection that fails, or for which there is no memory, ends no other one. Where nobody can be accepted, that is told on
/// `errors` and tried again after half a second, a hundred times in a row at most; want of sockets is not told, and ends
/// nothing.
///
/// The result is the exit status: 3 where nobody can be accepted so often, nothing can be waited for or a line can't be
/// printed, of which `why` says which it was, and 4 where there is no memory to begin; these end the call and are told on
/// `errors`. Else it is that of `serve_on`; a connection that patience ended counts as one that went well.
pub fn serve_sockets<S, C, T, O, E>(
    alloc: Global,
    sockets: &mut S,
    clock: &mut C,
    timer: &mut T,
    settings: &Settings,
    crowd: Crowd,
    output: &mut O,
    errors: &mut E,
    why: &mut Why,
) -> u8
where
    S: Sockets,
    C: Clock,
    T: Clock,
    O: Write,
    E: Write,
    ensures { IsServeStatus result }
{
    let Crowd {
        connections,
        at_once,
        patience,
    } = crowd;
    let patience = u64::from(patience) * SECOND;
    let Ok(mut connections) = Connections::new(alloc, settings, connections, at_once, patience)
    else {
        return told(&Stop::NoMemory, errors);
    };
    let served = rounds(&mut connections, sockets, clock, timer, output, errors, why);
    let_go(connections);
    match served {
        Ok(status) => status,
        Err(stop) => told_and_noted(&stop, errors, why),
    }
}

/// Tells where the sockets listen; a failed write is passed over.
fn tell_place<E: Write>(sockets: &TcpSockets, errors: &mut E) {
    if let Ok(address) = sockets.local_addr() {
        let _ = writeln!(errors, "listening {address}");
        let _ = errors.flush();
    }
}

/// What it is to the command that nothing can listen.
fn stop_of_bind(error: &io::Error) -> Stop
    ensures { IsBindStop error.now result }
{
    match error.kind() {
        ErrorKind::OutOfMemory => Stop::NoMemory,
        _ => Stop::Link,
    }
}

/// Tells where the sockets listen, and serves there. `NoMemory` says that there was no memory for them, `Link` that there
/// are none, and nothing else is said of that.
fn serve_at<R, O, E>(
    rt: &R,
    settings: &Settings,
    sockets: io::Result<TcpSockets>,
    crowd: Crowd,
    output: &mut O,
    errors: &mut E,
    why: &mut Why,
) -> Result<u8, Stop>
where
    R: HostClock + AllocGlobal,
    O: Write,
    E: Write,
    ensures bound { MatchResult sockets (λ _. IsOk result) (λ error. IsErrAnd result (IsBindStop error)) }
    ensures known { IfErr sockets (λ _. IsKnown why.old) → result ≡ Err Stop.Link → IsKnown why.new }
    ensures ok { IfOk result IsServeStatus }
    ensures err { IfErr result IsUnbound }
    ensures quiet { IfErr result (λ _. O.contents output.new ≡ O.contents output.old) }
    ensures untold { IfErr result (λ _. E.contents errors.new ≡ E.contents errors.old) }
{
    let mut sockets = match sockets {
        Ok(sockets) => sockets,
        Err(error) => return Err(stop_of_bind(&error)),
    };
    tell_place(&sockets, errors);
    let mut clock = MachineClock::new(rt);
    let mut timer = SteadyClock::new(rt);
    Ok(serve_sockets(
        rt.alloc(),
        &mut sockets,
        &mut clock,
        &mut timer,
        settings,
        crowd,
        output,
        errors,
        why,
    ))
}

/// Serves so many connections by the settings of the source, several at one time, and gives the exit status. It listens at
/// the address, and tells on `errors` which one it is.
///
/// The settings are read first, and `Link` says that nothing can listen at the address, or `NoMemory` that there is no
/// memory for it. Nothing is printed before. `why` has the reason of that, and of what ends the command later.
pub fn serve_many<R, O, E>(
    rt: &R,
    source: &Source,
    address: &str,
    crowd: Crowd,
    output: &mut O,
    errors: &mut E,
    why: &mut Why,
) -> Result<u8, Stop>
where
    R: Files + Net + HostClock + AllocGlobal,
    O: Write,
    E: Write,
    ensures ok { IfOk result (Serves false source.now) }
    ensures err { IfErr result (IsServeStop source.now) }
    ensures known { result ≡ Err Stop.Link → IsKnown why.new }
    ensures quiet { IfErr result (λ _. O.contents output.new ≡ O.contents output.old) }
    ensures untold { IfErr result (λ _. E.contents errors.new ≡ E.contents errors.old) }
{
    let settings = settings_in(rt, source)?;
    let sockets = TcpSockets::bind(rt, rt.alloc(), address, crowd.at_once as usize);
    note(&sockets, why);
    let served = serve_at(rt, &settings, sockets, crowd, output, errors, why);
    let_go(settings);
    served
}
