//! What the command does, over any reader and writers.

ghost use Rattle.std.specs.Prelude.{◌≡◌, map, Err, IfOk, IfErr, IfSome, OnOk};
ghost use Rattle.std.specs.Io.KnownBytes.{Appends};
ghost use Rattle.ua_command.specs.Run.{Streams, ShowsTextOf, IsStopOf, IsDone, IsStop, LeavesInput, Runs};
ghost use Rattle.ua_command.specs.Stop.{status_of, stop_text, IsQuiet};
ghost use Rattle.ua_command.specs.Why.{noted, IsKnown};
ghost use Rattle.ua_command.specs.declared.why.Why.TheVariants.{File as file_failed, Output as output_failed};

use crate::answer::answer;
use crate::ask::ask;
use crate::ask::inquiry::Inquiry;
use crate::check::{Machine, check};
use crate::serve::many::{Crowd, serve_many};
use crate::serve::serve;
use crate::show::show;
use crate::stop::{Stop, print};
use crate::value::value;
use crate::why::Why;
use std::io;
use std::io::{Read, Write};
use std::net::Net;
use std::rt::{Clock, Files};
use ua_trace::Choice;
use ua_words::{Command, Form, WordsFault, command_of};

/// Runs the command that the words are, which are those after the program's name, and gives the
/// exit status: 0 done, 1 settings or input refused, settings by which no connection can be opened, a capture with a
/// frame that is refused or cut, a question that got no answer, or a server that offers other than settings say, 2 words refused, 3 a failed read or write, or a link
/// that failed, 4 want of memory. Help and the version are printed on `output`, with status 0. What stopped the command
/// is told on `errors`, where a failed write is passed over; `serve` tells there at which address it listens, and so does
/// `ask` where it does. The input is read by `answer` alone, and by `show` of standard input.
pub fn run<R, I, O, E>(rt: &R, words: &[&str], input: &mut I, output: &mut O, errors: &mut E) -> u8
where
    R: Files + Net + Clock + AllocGlobal,
    I: Read,
    O: Write,
    E: Write,
    ensures runs { let streams : Streams = record { left = I.remaining input.old; printed = O.contents output.old; printed' = O.contents output.new; told = E.contents errors.old; told' = E.contents errors.new } in
        Runs (map (λ w. w.now) words.entry.now) streams result }
    ensures unread { LeavesInput (map (λ w. w.now) words.entry.now) (I.remaining input.old) (I.remaining input.new) }
{
    run_and_say(rt, words, input, output, errors, &mut Why::Unknown)
}

/// Runs the command in the same way, and says in `why` what is known of a link or a file that failed.
pub fn run_and_say<R, I, O, E>(
    rt: &R,
    words: &[&str],
    input: &mut I,
    output: &mut O,
    errors: &mut E,
    why: &mut Why,
) -> u8
where
    R: Files + Net + Clock + AllocGlobal,
    I: Read,
    O: Write,
    E: Write,
    ensures runs { let streams : Streams = record { left = I.remaining input.old; printed = O.contents output.old; printed' = O.contents output.new; told = E.contents errors.old; told' = E.contents errors.new } in
        Runs (map (λ w. w.now) words.entry.now) streams result }
    ensures unread { LeavesInput (map (λ w. w.now) words.entry.now) (I.remaining input.old) (I.remaining input.new) }
{
    match done(rt, words, input, output, errors, why) {
        Ok(status) => status,
        Err(stop) => {
            note(&stop, why);
            told(&stop, errors)
        }
    }
}

/// Says in `why` that a file stopped the command, where one did.
pub fn note(stop: &Stop, why: &mut Why)
    ensures { why.new ≡ noted file_failed stop.now why.old }
{
    if let Stop::File = stop {
        *why = Why::File;
    }
}

/// Tells what stopped a command that had read all, and gives the exit status, as `told` does. Where it was a write to
/// standard output, `why` says so; else that stays.
pub fn told_and_noted<E: Write>(stop: &Stop, errors: &mut E, why: &mut Why) -> u8
    ensures status { result ≡ status_of stop.now }
    ensures noted { why.new ≡ noted output_failed stop.now why.old }
{
    if let Stop::File = stop {
        *why = Why::Output;
    }
    told(stop, errors)
}

/// Tells what stopped the command, and gives the exit status; a failed write is passed over.
pub fn told<E: Write>(stop: &Stop, errors: &mut E) -> u8
    ensures { result ≡ status_of stop.now }
{
    let _ = tell(stop, errors);
    stop.status()
}

/// Tells what stopped the command. After an error a beginning of it may stand there.
fn tell<E: Write>(stop: &Stop, errors: &mut E) -> io::Result<()>
    ensures { OnOk result (IfSome (stop_text stop.now) (Appends (E.contents errors.old) (E.contents errors.new))) }
{
    write!(errors, "{stop}")
}

/// Prints the text that the words ask for.
fn shown<O: Write>(text: &str, output: &mut O) -> Result<u8, Stop>
    ensures ok { IfOk result (λ status. (status ≡ 0) × Appends (O.contents output.old) (O.contents output.new) text.now) }
    ensures err { IfErr result (λ e. e ≡ Stop.File) }
{
    print(output, text)?;
    Ok(0)
}

/// Prints the text that words ask for which are no command, or says why they are none.
fn say_fault<O: Write>(fault: WordsFault, output: &mut O) -> Result<u8, Stop>
    ensures ok { IfOk result (λ status. (status ≡ 0) × ShowsTextOf fault (O.contents output.old) (O.contents output.new)) }
    ensures err { IfErr result (IsStopOf fault) }
    ensures quiet { IfErr result (λ stop. IsQuiet stop (O.contents output.old) (O.contents output.new)) }
{
    match fault {
        WordsFault::Shown(text) => shown(text.as_str(), output),
        WordsFault::Refused(text) => Err(Stop::Words(text)),
        WordsFault::NoMemory => Err(Stop::NoMemory),
    }
}

/// Does what the words ask for.
fn done<R, I, O, E>(
    rt: &R,
    words: &[&str],
    input: &mut I,
    output: &mut O,
    errors: &mut E,
    why: &mut Why,
) -> Result<u8, Stop>
where
    R: Files + Net + Clock + AllocGlobal,
    I: Read,
    O: Write,
    E: Write,
    ensures done { let streams : Streams = record { left = I.remaining input.old; printed = O.contents output.old; printed' = O.contents output.new; told = E.contents errors.old; told' = E.contents errors.new } in
        IfOk result (IsDone (map (λ w. w.now) words.entry.now) streams) }
    ensures err { IfErr result (IsStop (map (λ w. w.now) words.entry.now) (I.remaining input.old)) }
    ensures quiet { IfErr result (λ stop. IsQuiet stop (O.contents output.old) (O.contents output.new)) }
    ensures unread { LeavesInput (map (λ w. w.now) words.entry.now) (I.remaining input.old) (I.remaining input.new) }
    ensures known { result ≡ Err Stop.Link → IsKnown why.new }
{
    let command = match command_of(rt.alloc(), words) {
        Ok(command) => command,
        Err(fault) => return say_fault(fault, output),
    };
    match command {
        Command::Answer { source, reverse } => answer(rt, &source, reverse, input, output),
        Command::Value { kind, bytes, form } => {
            value(rt.alloc(), kind, bytes.as_slice(), form, output)
        }
        Command::Show {
            capture,
            form,
            stream,
            port,
        } => show(
            rt,
            &capture,
            Choice {
                stream,
                port,
                json: form == Form::Json,
                all: form == Form::Whole,
            },
            form,
            input,
            output,
            errors,
            why,
        ),
        Command::Serve {
            source,
            address,
            connections,
            reverse,
        } => serve(
            rt,
            &source,
            address.as_str(),
            connections,
            reverse,
            output,
            errors,
            why,
        ),
        Command::ServeMany {
            source,
            address,
            connections,
            at_once,
            patience,
        } => serve_many(
            rt,
            &source,
            address.as_str(),
            Crowd {
                connections,
                at_once,
                patience,
            },
            output,
            errors,
            why,
        ),
        Command::Ask {
            question,
            locales,
            filter,
            address,
            url,
            seconds,
            form,
        } => ask(
            rt,
            &Inquiry {
                question,
                locales,
                filter,
                form,
            },
            address.as_str(),
            url.as_deref(),
            seconds,
            output,
            errors,
            why,
        ),
        Command::Check {
            source,
            address,
            url,
            seconds,
        } => check(
            rt,
            &source,
            Machine {
                address: address.as_str(),
                url: url.as_str(),
                seconds,
            },
            output,
            errors,
            why,
        ),
    }
}
