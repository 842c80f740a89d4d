//! The command `serve`: serves connections over TCP, one after the other.

ghost use Rattle.std.specs.Prelude.{◌≡◌, ◌<◌, true, Err, IsOk, IfOk, IfErr, MatchResult};
ghost use Rattle.ua_command.specs.Serve.{status_behind, IsServeStatus, IsServedStatus, IsServeStop, IsServingStop, Serves};
ghost use Rattle.ua_command.specs.Why.{IsKnown};

mod hearing;
pub mod many;
mod streams;

use crate::ending::Ending;
use crate::run::told_and_noted;
use crate::serve::hearing::{has_last_word, hear_out};
use crate::serve::streams::{Accepted, Made, Streams};
use crate::settings::settings_in;
use crate::stop::{Stop, print};
use crate::why::Why;
use std::io::{Read, Write};
use std::net::{Net, OpenListener, OpenStream, TcpListener};
use std::rt::{Clock, Files};
use std::{fmt, io};
use ua_conn::{End, ReverseFault};
use ua_disco::Settings;
use ua_link::{MachineClock, Report, TcpLink, serve_connection, serve_connection_reverse};
use ua_socket::Reason;
use ua_value::plumbing::let_go;
use ua_words::Source;

/// The most reads of one connection.
const TURNS: u32 = 65536;

/// A connection that was served.
#[derive(Clone, Copy)]
struct Served {
    /// The id of its channel.
    id: u32,
    end: End,
    /// The bytes that came.
    read: u64,
    /// The bytes that went out.
    written: u128,
}

/// The bytes of all reads.
fn total(cuts: &[(i64, usize)]) -> u64 {
    let mut total = 0u64;
    for (_, len) in cuts {
        total = total.saturating_add(*len as u64);
    }
    total
}

/// What a connection came to, whose channel has this id.
fn served_so(id: u32, report: &Report) -> Served {
    Served {
        id,
        end: report.end,
        read: total(report.cuts.as_slice()),
        written: report.written,
    }
}

/// Serves one connection over a stream; `reverse` says that this end opened it. Where there was no memory to begin it, it
/// came to nothing.
fn serve_over<R: Clock + AllocGlobal, S: Read + Write>(
    rt: &R,
    settings: &Settings,
    reverse: bool,
    id: u32,
    stream: &mut S,
) -> Result<Served, Stop>
    requires { 0 < id }
    ensures stop { IfErr result (IsServingStop reverse settings.now) }
    ensures linked { IfErr result (λ stop. stop ≡ Stop.Link → ⊥) }
{
    let mut link = TcpLink::new(stream);
    let mut clock = MachineClock::new(rt);
    if !reverse {
        let report = serve_connection(rt.alloc(), settings, id, &mut link, &mut clock, TURNS);
        return Ok(served_so(id, &report));
    }
    match serve_connection_reverse(rt.alloc(), settings, id, &mut link, &mut clock, TURNS) {
        Ok(report) => Ok(served_so(id, &report)),
        Err(ReverseFault::NoMemory) => Ok(Served {
            id,
            end: End::NoMemory,
            read: 0,
            written: 0,
        }),
        Err(fault) => Err(Stop::Reverse(fault)),
    }
}

/// Serves one connection over a stream in this way. It is closed then, behind its last word once the other end was heard
/// out.
fn serve_stream<R: Clock + AllocGlobal, S: Read + Write + OpenStream + Drop>(
    rt: &R,
    settings: &Settings,
    reverse: bool,
    id: u32,
    stream: S,
) -> Result<Served, Stop>
    requires { 0 < id }
    ensures stop { IfErr result (IsServingStop reverse settings.now) }
    ensures linked { IfErr result (λ stop. stop ≡ Stop.Link → ⊥) }
{
    let mut stream = stream;
    let served = serve_over(rt, settings, reverse, id, &mut stream)?;
    if has_last_word(served.end) {
        hear_out(rt, &mut stream);
    }
    Ok(served)
}

/// Prints the line of a connection at once.
fn print_line<O: Write>(output: &mut O, served: Served) -> Result<(), Stop>
    ensures { IfErr result (λ stop. stop ≡ Stop.File) }
{
    let Served {
        id,
        end,
        read,
        written,
    } = served;
    print_ended(output, id, Ending(end), read, written)
}

/// Prints at once the line of a connection that ended so.
fn print_ended<O: Write, D: fmt::Display + Drop>(
    output: &mut O,
    id: u32,
    ending: D,
    read: u64,
    written: u128,
) -> Result<(), Stop>
    ensures { IfErr result (λ stop. stop ≡ Stop.File) }
{
    if writeln!(
        output,
        "connection {id} {ending} read {read} written {written}"
    )
    .is_err()
    {
        return Err(Stop::File);
    }
    print(output, "")
}

/// The exit status after one more connection: 4 where one ended for want of memory, else 3 where the link of one
/// failed, else 0.
pub fn status_with(status: u8, end: End) -> u8
    requires { IsServeStatus status }
    ensures kind { IsServeStatus result }
    ensures behind { result ≡ status_behind status end }
{
    match end {
        End::NoMemory => 4,
        End::LinkFailed if status == 0 => 3,
        _ => status,
    }
}

/// Serves the connection over a stream, prints its line, and gives the exit status with it. Where there is no stream, and
/// nowhere else, the stop is a link, and the reason stands in `why`.
fn serve_next<R, S, O>(
    rt: &R,
    stream: Result<S, Why>,
    settings: &Settings,
    reverse: bool,
    id: u32,
    status: u8,
    output: &mut O,
    why: &mut Why,
) -> Result<u8, Stop>
where
    R: Clock + AllocGlobal,
    S: Read + Write + OpenStream + Drop,
    O: Write,
    requires id { 0 < id }
    requires status { IsServeStatus status }
    ensures status { IfOk result IsServeStatus }
    ensures stop { IfErr result (IsServingStop reverse settings.now) }
    ensures linked { MatchResult stream (λ _. result ≡ Err Stop.Link → ⊥) (λ _. result ≡ Err Stop.Link) }
    ensures why { MatchResult stream (λ _. why.new ≡ why.old) (λ reason. why.new ≡ reason) }
    ensures known { IfErr stream IsKnown → result ≡ Err Stop.Link → IsKnown why.new }
{
    match stream {
        Ok(stream) => {
            let served = serve_stream(rt, settings, reverse, id, stream)?;
            print_line(output, served)?;
            Ok(status_with(status, served.end))
        }
        Err(reason) => {
            *why = reason;
            Err(Stop::Link)
        }
    }
}

/// Serves so many connections, and gives the exit status of their ends; `reverse` says that this end opens them. Where the
/// stop is a link, the reason stands in `why`.
fn serve_all<R, T, O>(
    rt: &R,
    streams: &T,
    settings: &Settings,
    reverse: bool,
    connections: u16,
    output: &mut O,
    why: &mut Why,
) -> Result<u8, Stop>
where
    R: Clock + AllocGlobal,
    T: Streams,
    O: Write,
    ensures status { IfOk result IsServeStatus }
    ensures stop { IfErr result (IsServingStop reverse settings.now) }
    ensures known { result ≡ Err Stop.Link → IsKnown why.new }
{
    let mut status = 0;
    'connections: for before in 0..connections {
        let id = u32::from(before) + 1;
        let stream = streams.next();
        status = serve_next(rt, stream, settings, reverse, id, status, output, why)?;
    }
    Ok(status)
}

/// The same, and tells on `errors` what ended it before, and says in `why` what is known of that.
fn serve_or_tell<R, T, O, E>(
    rt: &R,
    streams: &T,
    settings: &Settings,
    reverse: bool,
    connections: u16,
    output: &mut O,
    errors: &mut E,
    why: &mut Why,
) -> u8
where
    R: Clock + AllocGlobal,
    T: Streams,
    O: Write,
    E: Write,
    ensures { IsServedStatus reverse settings.now result }
{
    match serve_all(rt, streams, settings, reverse, connections, output, why) {
        Ok(status) => status,
        Err(stop) => told_and_noted(&stop, errors, why),
    }
}

/// Serves so many connections of a listener, one after the other, by these settings; their channels have the ids from 1
/// on. Each one's line is printed as it ends: how it ended, how many bytes came, how many went out. After any end the
/// next connection is served; where this end had the last word, once the other end closed the connection too, or was heard
/// for a second or 65536 bytes more.
///
/// The result is the exit status: 3 where a connection can't be accepted or a line can't be printed, which ends the
/// call and is told on `errors`, with the reason in `why`; else 4 where a connection ended for want of memory, else 3
/// where the link of one failed, else 0.
pub fn serve_on<R, L, O, E>(
    rt: &R,
    listener: &L,
    settings: &Settings,
    connections: u16,
    output: &mut O,
    errors: &mut E,
    why: &mut Why,
) -> u8
where
    R: Clock + AllocGlobal,
    L: OpenListener,
    L::Stream: Read + Write + OpenStream,
    O: Write,
    E: Write,
    ensures { IsServeStatus result }
{
    let streams = Accepted { listener };
    serve_or_tell(
        rt,
        &streams,
        settings,
        false,
        connections,
        output,
        errors,
        why,
    )
}

/// Serves so many connections that it makes to an address, one after the other, by these settings: each begins with the
/// server's ReverseHello, and goes on as one of `serve_on` does, with the same ids and lines. One for which there is no
/// memory has the line `connection ID memory read 0 written 0`. OPC 10000-6, 7.1.2.6.
///
/// The result is the exit status: 3 where a connection can't be made or a line can't be printed, and 1 where the settings
/// do not let a server open a connection, which is found once the first is made; these end the call and are told on
/// `errors`, the first two with the reason in `why`. Else it is that of `serve_on`.
pub fn serve_to<R, O, E>(
    rt: &R,
    address: &str,
    settings: &Settings,
    connections: u16,
    output: &mut O,
    errors: &mut E,
    why: &mut Why,
) -> u8
where
    R: Net + Clock + AllocGlobal,
    O: Write,
    E: Write,
    ensures { IsServedStatus true settings.now result }
{
    let streams = Made { rt, address };
    serve_or_tell(
        rt,
        &streams,
        settings,
        true,
        connections,
        output,
        errors,
        why,
    )
}

/// Tells at which address a listener listens; a failed write is passed over.
pub fn tell_address<L: OpenListener, E: Write>(listener: &L, errors: &mut E) {
    if let Ok(address) = listener.local_addr() {
        let _ = writeln!(errors, "listening {address}");
        let _ = errors.flush();
    }
}

/// Tells where the listener listens, and serves there. `Link` says that there is none, and nothing else is said of that.
fn serve_at<R, L, O, E>(
    rt: &R,
    settings: &Settings,
    listener: io::Result<L>,
    connections: u16,
    output: &mut O,
    errors: &mut E,
    why: &mut Why,
) -> Result<u8, Stop>
where
    R: Clock + AllocGlobal,
    L: OpenListener + Drop,
    L::Stream: Read + Write + OpenStream,
    O: Write,
    E: Write,
    ensures bound { MatchResult listener (λ _. IsOk result) (λ _. result ≡ Err Stop.Link) }
    ensures known { IfErr listener (λ _. IsKnown why.old) → result ≡ Err Stop.Link → IsKnown why.new }
    ensures ok { IfOk result IsServeStatus }
    ensures err { IfErr result (λ stop. stop ≡ Stop.Link) }
    ensures quiet { IfErr result (λ _. O.contents output.new ≡ O.contents output.old) }
    ensures untold { IfErr result (λ _. E.contents errors.new ≡ E.contents errors.old) }
{
    let Ok(listener) = listener else {
        return Err(Stop::Link);
    };
    tell_address(&listener, errors);
    Ok(serve_on(rt, &listener, settings, connections, output, errors, why))
}

/// Says in `why` for which reason nothing listens, where nothing does.
fn note<L>(listener: &io::Result<L>, why: &mut Why)
    ensures { IfErr listener.now (λ _. IsKnown why.new) }
{
    if let Err(error) = listener {
        *why = Why::NotListening(Reason::System(*error));
    }
}

/// Serves so many connections by these settings, at the address or to it, and gives the exit status of `serve_on` or
/// `serve_to`. `Link` says that nothing can listen at the address, and nothing else is said of that.
fn serve_by<R, O, E>(
    rt: &R,
    settings: &Settings,
    address: &str,
    connections: u16,
    reverse: bool,
    output: &mut O,
    errors: &mut E,
    why: &mut Why,
) -> Result<u8, Stop>
where
    R: Net + Clock + AllocGlobal,
    O: Write,
    E: Write,
    ensures ok { IfOk result (IsServedStatus reverse settings.now) }
    ensures err { IfErr result (λ stop. stop ≡ Stop.Link) }
    ensures known { result ≡ Err Stop.Link → IsKnown why.new }
    ensures quiet { IfErr result (λ _. O.contents output.new ≡ O.contents output.old) }
    ensures untold { IfErr result (λ _. E.contents errors.new ≡ E.contents errors.old) }
{
    if reverse {
        let status = serve_to(rt, address, settings, connections, output, errors, why);
        return Ok(status);
    }
    let listener = TcpListener::bind(rt, address);
    note(&listener, why);
    serve_at(rt, settings, listener, connections, output, errors, why)
}

/// Serves so many connections by the settings of the source, and gives the exit status. It listens at the address, and
/// tells on `errors` which one it is, or where `reverse` says so makes the connections to the address.
///
/// The settings are read first, and `Link` says that nothing can listen at the address. Nothing is printed before. `why`
/// has the reason of that, and of what ends the command later.
pub fn serve<R, O, E>(
    rt: &R,
    source: &Source,
    address: &str,
    connections: u16,
    reverse: bool,
    output: &mut O,
    errors: &mut E,
    why: &mut Why,
) -> Result<u8, Stop>
where
    R: Files + Net + Clock + AllocGlobal,
    O: Write,
    E: Write,
    ensures ok { IfOk result (Serves reverse source.now) }
    ensures err { IfErr result (IsServeStop source.now) }
    ensures known { result ≡ Err Stop.Link → IsKnown why.new }
    ensures quiet { IfErr result (λ _. O.contents output.new ≡ O.contents output.old) }
    ensures untold { IfErr result (λ _. E.contents errors.new ≡ E.contents errors.old) }
{
    let settings = settings_in(rt, source)?;
    let served = serve_by(
        rt,
        &settings,
        address,
        connections,
        reverse,
        output,
        errors,
        why,
    );
    let_go(settings);
    served
}
