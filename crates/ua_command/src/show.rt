//! The command `show`: prints the frames in the raw bytes of one direction, or in a file of packets.

ghost use Rattle.std.specs.Prelude.{◌≡◌, ◌≤◌, IfOk, IfErr, string_bytes};
ghost use Rattle.ua_command.specs.Show.{IsShownIn, IsTraceStatus, LeavesFor, ShowsIn, ShowsFrom, ShowsCapture};
ghost use Rattle.ua_command.specs.Stop.{IsFileStop, IsQuiet};
ghost use Rattle.ua_print.specs.Capture.{shown};

use crate::begun::{Begun, begin};
use crate::file::stop_of_open;
use crate::run::{note, told};
use crate::stop::{Stop, print};
use crate::why::Why;
use std::alloc::Global;
use std::fs::File;
use std::io::{Read, Write};
use std::rt::Files;
use ua_json::frames_json;
use ua_print::lines_of;
use ua_trace::{Choice, Trace, whole_lines_of};
use ua_value::NoMemory;
use ua_value::plumbing::let_go;
use ua_words::{Capture, Form};

/// The text of these bytes in this form, and the exit status.
fn shown_in(alloc: Global, bytes: &[u8], form: Form) -> Result<(String, u8), NoMemory>
    ensures text { IfOk result (λ x. IsShownIn form bytes.now (string_bytes x.0)) }
    ensures status { IfOk result (λ x. x.1 ≡ (shown bytes.now).status) }
{
    match form {
        Form::Lines => lines_of(alloc, bytes),
        Form::Json => frames_json(alloc, bytes),
        Form::Whole => whole_lines_of(alloc, bytes),
    }
}

/// Prints these bytes in this form, and gives the exit status.
fn show_in<O: Write>(alloc: Global, bytes: &[u8], form: Form, output: &mut O) -> Result<u8, Stop>
    ensures ok { IfOk result (ShowsIn form bytes.now (O.contents output.old) (O.contents output.new)) }
    ensures err { IfErr result IsFileStop }
    ensures quiet { IfErr result (λ stop. IsQuiet stop (O.contents output.old) (O.contents output.new)) }
{
    let (text, status) = shown_in(alloc, bytes, form)?;
    print(output, text.as_str())?;
    Ok(status)
}

/// The bytes that are read of a file of packets at a time.
const PIECE: usize = 16384;

/// The most reads of one file of packets: of 64 TiB where each read fills its piece.
const MOST_PIECES: u32 = u32::MAX;

/// Prints the lines of a piece of a file of packets, if there are any; the text is then empty.
fn print_piece<O: Write>(text: &mut String, output: &mut O) -> Result<(), Stop>
    ensures { IfErr result IsFileStop }
{
    if !text.is_empty() {
        print(output, text.as_str())?;
        text.clear();
    }
    Ok(())
}

/// Takes a piece of a file of packets, and prints the lines that it completes.
fn trace_piece<O: Write>(
    trace: &mut Trace,
    text: &mut String,
    piece: &[u8],
    output: &mut O,
) -> Result<(), Stop>
    ensures { IfErr result IsFileStop }
{
    trace.feed(piece, text)?;
    print_piece(text, output)
}

/// Reads the rest of a file of packets, and prints the lines of each piece before the next one is read.
fn trace_rest<I: Read, O: Write>(
    trace: &mut Trace,
    text: &mut String,
    input: &mut I,
    output: &mut O,
) -> Result<(), Stop>
    ensures { IfErr result IsFileStop }
{
    let mut piece = [0u8; PIECE];
    'pieces: for _ in 0..MOST_PIECES {
        let Ok(n) = input.read(&mut piece) else {
            return Err(Stop::File);
        };
        if n == 0 {
            return Ok(());
        }
        trace_piece(trace, text, &piece[..n], output)?;
    }
    Err(Stop::File)
}

/// Prints the lines of a file of packets that begins with these bytes, and gives the exit status.
fn trace_onto<I: Read, O: Write>(
    trace: &mut Trace,
    text: &mut String,
    front: &[u8],
    input: &mut I,
    output: &mut O,
) -> Result<u8, Stop>
    ensures ok { IfOk result (λ status. status ≤ 1) }
    ensures err { IfErr result IsFileStop }
{
    trace_piece(trace, text, front, output)?;
    trace_rest(trace, text, input, output)?;
    let status = trace.end(text)?;
    print(output, text.as_str())?;
    Ok(status)
}

/// The same by a new trace.
fn trace_all<I: Read, O: Write>(
    alloc: Global,
    front: &[u8],
    choice: Choice,
    input: &mut I,
    output: &mut O,
) -> Result<u8, Stop>
    ensures ok { IfOk result (λ status. status ≤ 1) }
    ensures err { IfErr result IsFileStop }
{
    let mut trace = Trace::new(alloc, choice)?;
    let mut text = String::new(alloc);
    let came = trace_onto(&mut trace, &mut text, front, input, output);
    let_go(trace);
    let_go(text);
    came
}

/// The same, and tells on `errors` what ended it before, and says in `why` what is known of that.
fn trace_or_tell<I: Read, O: Write, E: Write>(
    alloc: Global,
    front: &[u8],
    choice: Choice,
    input: &mut I,
    output: &mut O,
    errors: &mut E,
    why: &mut Why,
) -> u8
    ensures status { IsTraceStatus result }
    ensures untold { result ≤ 1 → E.contents errors.new ≡ E.contents errors.old }
{
    match trace_all(alloc, front, choice, input, output) {
        Ok(status) => status,
        Err(stop) => {
            note(&stop, why);
            told(&stop, errors)
        }
    }
}

/// Shows what an input gives: raw bytes in this form, or the connections in a file of packets that are chosen.
fn show_from<I: Read, O: Write, E: Write>(
    alloc: Global,
    choice: Choice,
    form: Form,
    input: &mut I,
    output: &mut O,
    errors: &mut E,
    why: &mut Why,
) -> Result<u8, Stop>
    ensures ok { IfOk result (ShowsFrom form (I.remaining input.old) (O.contents output.old) (O.contents output.new) (E.contents errors.old) (E.contents errors.new)) }
    ensures err { IfErr result IsFileStop }
    ensures quiet { IfErr result (λ stop. IsQuiet stop (O.contents output.old) (O.contents output.new)) }
{
    match begin(alloc, input)? {
        Begun::Raw(bytes) => show_in(alloc, bytes.as_slice(), form, output),
        Begun::Packets(front) => Ok(trace_or_tell(
            alloc,
            front.as_slice(),
            choice,
            input,
            output,
            errors,
            why,
        )),
    }
}

/// Prints a line for each frame of a capture and each message that is whole with it, or an object of JSON in the place of
/// each line, and gives the exit status: 0 where the last frame ends with the bytes, 1 where a frame is refused or cut
/// or a message too long, which the last line says. In the form of all that is known, the lines of each answer to FindServers or GetEndpoints
/// stand under that of its message, each behind four blanks.
///
/// A capture of raw bytes is read to its end before anything is printed; `File` says that it can't be. One of packets,
/// which its first four bytes tell, is read piece by piece, and what is printed stands in front of what stops it then,
/// which is told on `errors`: status 3 for a failed read or write, of which `why` then says that it was a file, 4 for want
/// of memory. `choice` says which of its connections are shown, by number and by port; without a port those of port 4840
/// are, and those that begin as OPC UA does. Of a capture in a file the input is left as it was.
pub fn show<R: Files + AllocGlobal, I: Read, O: Write, E: Write>(
    rt: &R,
    capture: &Capture,
    choice: Choice,
    form: Form,
    input: &mut I,
    output: &mut O,
    errors: &mut E,
    why: &mut Why,
) -> Result<u8, Stop>
    ensures ok { IfOk result (ShowsCapture form capture.now (I.remaining input.old) (O.contents output.old) (O.contents output.new) (E.contents errors.old) (E.contents errors.new)) }
    ensures err { IfErr result IsFileStop }
    ensures unread { LeavesFor capture.now (I.remaining input.old) (I.remaining input.new) }
    ensures quiet { IfErr result (λ stop. IsQuiet stop (O.contents output.old) (O.contents output.new)) }
{
    match capture {
        Capture::Input => show_from(rt.alloc(), choice, form, input, output, errors, why),
        Capture::File(path) => match File::open(rt, path.as_str()) {
            Ok(mut file) => show_from(rt.alloc(), choice, form, &mut file, output, errors, why),
            Err(error) => Err(stop_of_open(&error)),
        },
    }
}
