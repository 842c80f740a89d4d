//! The command `answer`: answers the pieces of a connection.

ghost use Rattle.std.specs.Prelude.{◌≡◌, ◌≤◌, ◌+◌, ◌*◌, ◌++◌, List, [], ℕ, codes, map, vec_capacity, IfOk, OnOk, IfErr, Ok, string_bytes};
ghost use Rattle.std.specs.Io.KnownBytes.{Appends};
ghost use Rattle.hex.specs.Hex.{encode_lower};
ghost use Rattle.ua_frame.specs.Streams.{pieces_of};
ghost use Rattle.ua_command.specs.Answer.{answer_lines, answered as answered_bytes, ending, end_text, piece_of, stream_of, IsInput, AnswersInput, AnswersBy};
ghost use Rattle.ua_command.specs.Reverse.{CanOpen, IsReverseFault};
ghost use Rattle.ua_command.specs.Script.{script_in, times};
ghost use Rattle.ua_command.specs.Stop.{IsFileStop, IsInputStop, IsAnsweringStop, IsAnswerStop, IsQuiet};

use crate::ending::Ending;
use crate::input::read_whole;
use crate::script::{TimedPiece, script_of};
use crate::settings::settings_in;
use crate::stop::{Stop, print_bytes};
use std::alloc::{AllocError, Global};
use std::io::{Read, Write};
use std::rt::Files;
use ua_conn::{End, ReverseFault, reply_all, reply_all_reverse};
use ua_disco::Settings;
use ua_hex::encode_onto;
use ua_value::NoMemory;
use ua_value::plumbing::let_go;
use ua_words::Source;

/// The id of the channel that a connection of the command has.
const CHANNEL: u32 = 1;

/// The moments of the pieces, and their bytes as they are lent to a connection.
fn lent(alloc: Global, pieces: &[TimedPiece]) -> Result<Vec<(i64, &[u8])>, NoMemory>
    ensures { IfOk result (λ lent. pieces_of lent.items ≡ map piece_of (times pieces.now)) }
{
    let mut lent: Vec<(i64, &[u8])> = Vec::new(alloc);
    'pieces: for piece in pieces {
        lent.push((piece.moment, piece.bytes.as_slice()))?;
    }
    Ok(lent)
}

/// What the pieces are answered, and how the connection ends; `reverse` says that the server opened it.
fn answered(
    alloc: Global,
    settings: &Settings,
    reverse: bool,
    pieces: &[TimedPiece],
) -> Result<(Vec<u8>, End), ReverseFault>
    ensures can_open { IfOk result (λ _. CanOpen reverse settings.now) }
    ensures reply { IfOk result (λ replied. replied.0.items ≡ answered_bytes reverse settings.now (stream_of (times pieces.now))) }
    ensures end { IfOk result (λ replied. replied.1 ≡ ending settings.now (stream_of (times pieces.now))) }
    ensures fault { IfErr result (IsReverseFault reverse settings.now) }
{
    let lent = lent(alloc, pieces)?;
    if reverse {
        return reply_all_reverse(alloc, settings, CHANNEL, lent.as_slice());
    }
    match reply_all(alloc, settings, CHANNEL, lent.as_slice()) {
        Ok(replied) => Ok(replied),
        Err(_) => Err(ReverseFault::NoMemory),
    }
}

/// The same of pieces that are let go of before anything is made of the reply.
fn answered_once(
    alloc: Global,
    settings: &Settings,
    reverse: bool,
    pieces: Vec<TimedPiece>,
) -> Result<(Vec<u8>, End), ReverseFault>
    ensures can_open { IfOk result (λ _. CanOpen reverse settings.now) }
    ensures reply { IfOk result (λ replied. replied.0.items ≡ answered_bytes reverse settings.now (stream_of (times pieces.items))) }
    ensures end { IfOk result (λ replied. replied.1 ≡ ending settings.now (stream_of (times pieces.items))) }
    ensures fault { IfErr result (IsReverseFault reverse settings.now) }
{
    let answered = answered(alloc, settings, reverse, pieces.as_slice());
    let_go(pieces);
    answered
}

/// The end of the line of the reply, and the line of the end.
fn last_line(alloc: Global, end: End) -> Result<String, NoMemory>
    ensures { IfOk result (λ text. string_bytes text ≡ codes "\nend " ++ end_text end ++ codes "\n") }
{
    format!(in alloc; "\nend {}\n", Ending(end))
}

/// Room for the digits of so many bytes, and for so many bytes behind them.
fn room_for(alloc: Global, bytes: usize, behind: usize) -> Result<Vec<u8>, AllocError>
    ensures empty { IfOk result (λ room. room.items ≡ []) }
    ensures capacity { IfOk result (λ room. 2 * bytes + behind ≤ vec_capacity room) }
{
    let Some(digits) = bytes.checked_mul(2) else {
        return Err(AllocError);
    };
    let Some(room) = digits.checked_add(behind) else {
        return Err(AllocError);
    };
    Vec::with_capacity(alloc, room)
}

/// The reply in hex, and a text behind it. Room for both is asked for at once, and then no more memory.
fn lines(alloc: Global, reply: &[u8], behind: &[u8]) -> Result<Vec<u8>, AllocError>
    ensures { IfOk result (λ text. text.items ≡ encode_lower reply.now ++ behind.now) }
{
    let mut text = room_for(alloc, reply.len(), behind.len())?;
    encode_onto(&mut text, reply)?;
    text.extend_from_slice(behind)?;
    Ok(text)
}

/// Prints the reply in hex on one line, and the end on another: both in one write, before which all memory is taken.
fn print_answer<O: Write>(alloc: Global, reply: &[u8], end: End, output: &mut O) -> Result<(), Stop>
    ensures ok { OnOk result (Appends (O.contents output.old) (O.contents output.new) (answer_lines reply.now end)) }
    ensures err { IfErr result IsFileStop }
    ensures quiet { IfErr result (λ stop. IsQuiet stop (O.contents output.old) (O.contents output.new)) }
{
    let last = last_line(alloc, end)?;
    let lines = lines(alloc, reply, last.as_bytes())?;
    print_bytes(output, lines.as_slice())
}

/// The pieces that the lines of the whole input give, or the number of the first bad line.
fn pieces_in<I: Read>(alloc: Global, input: &mut I) -> Result<Vec<TimedPiece>, Stop>
    ensures ok { IfOk result (λ pieces. (text : List ℕ) × IsInput (I.remaining input.old) text × (script_in text ≡ Ok (times pieces.items))) }
    ensures err { IfErr result (IsInputStop (I.remaining input.old)) }
{
    let text = read_whole(alloc, input)?;
    let pieces = script_of(alloc, text.as_slice())?;
    Ok(pieces)
}

/// Answers the pieces that the input gives by these settings, prints the reply and the end, and gives the exit status.
fn answer_input<I: Read, O: Write>(
    alloc: Global,
    settings: &Settings,
    reverse: bool,
    input: &mut I,
    output: &mut O,
) -> Result<u8, Stop>
    ensures ok { IfOk result (AnswersInput reverse settings.now (I.remaining input.old) (O.contents output.old) (O.contents output.new)) }
    ensures err { IfErr result (IsAnsweringStop reverse settings.now (I.remaining input.old)) }
    ensures quiet { IfErr result (λ stop. IsQuiet stop (O.contents output.old) (O.contents output.new)) }
{
    let pieces = pieces_in(alloc, input)?;
    let (reply, end) = answered_once(alloc, settings, reverse, pieces)?;
    print_answer(alloc, reply.as_slice(), end, output)?;
    Ok(Ending(end).status())
}

/// Answers the pieces that the input gives by the settings of the source, prints the reply and the end, and gives the
/// exit status: 0 where a close came or the input ended behind a whole frame, else 1. `reverse` says that the server
/// opened the connection itself, so that the reply begins with its ReverseHello.
///
/// The settings are read first. Nothing is printed before they were understood, the input was read to its end, all of
/// its lines were understood and the lines of the answer are made. That these settings do not let a server open a
/// connection is found behind the lines.
pub fn answer<R: Files + AllocGlobal, I: Read, O: Write>(
    rt: &R,
    source: &Source,
    reverse: bool,
    input: &mut I,
    output: &mut O,
) -> Result<u8, Stop>
    ensures ok { IfOk result (AnswersBy reverse source.now (I.remaining input.old) (O.contents output.old) (O.contents output.new)) }
    ensures err { IfErr result (IsAnswerStop reverse source.now (I.remaining input.old)) }
    ensures quiet { IfErr result (λ stop. IsQuiet stop (O.contents output.old) (O.contents output.new)) }
{
    let settings = settings_in(rt, source)?;
    answer_input(rt.alloc(), &settings, reverse, input, output)
}
