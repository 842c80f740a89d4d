//! The lines of standard input: pieces of a stream in hex, each with its moment.

ghost use Rattle.std.specs.Prelude.{◌≡◌, ◌==◌, ◌<◌, ◌∷◌, length, map, filter, IfOk, OnOk, IfErr, IfSome, MatchResult};
ghost use Rattle.std.specs.List.{slice_split, list_all};
ghost use Rattle.std.specs.Char.{is_ascii_digit};
ghost use Rattle.hex.specs.Hex.{decode_of};
ghost use Rattle.ua_command.specs.Script.{content_of, content_of_kept, is_kept, of_bytes, moment_in, script_in, lines_of, shown, timed, AddsLine, IsLineFault, IsScriptFault};
ghost use Rattle.ua_command.specs.declared.script.ScriptFault.TheVariants.{NoMemory as OutOfMemory};

use crate::search::{are_dropped, first_dropped, is_dropped, line_end};
use hex::FromHexError;
use std::alloc::{AllocError, AllocFailed, Global};

/// A moment, and the bytes that came then.
#[derive(Debug, Drop)]
pub struct TimedPiece {
    /// The moment, in ticks.
    pub moment: i64,
    /// What came then.
    pub bytes: Vec<u8>,
}

/// Why a text gives no pieces.
#[derive(Clone, Copy, Debug, PartialEq, Eq)]
pub enum ScriptFault {
    /// The first line that is none, counted from 1.
    BadLine(u64),
    /// A growth was refused.
    NoMemory,
}

impl From<AllocError> for ScriptFault {
    ghost from_gives = { λ _ e. e ≡ OutOfMemory };

    fn from(_e: AllocError) -> ScriptFault {
        ScriptFault::NoMemory
    }
}

impl<T: Drop> From<AllocFailed<T>> for ScriptFault {
    ghost from_gives = { λ _ e. e ≡ OutOfMemory };

    fn from(_e: AllocFailed<T>) -> ScriptFault {
        ScriptFault::NoMemory
    }
}

/// What a line says.
#[derive(Debug, Drop)]
enum Line {
    Skipped,
    Moment(i64),
    Piece(Vec<u8>),
    Bad,
}

/// The greatest moment.
const LATEST: u64 = 9_223_372_036_854_775_807;

fn are_digits(text: &[u8]) -> bool
    ensures { result ≡ list_all is_ascii_digit text.now }
{
    text.iter().all(|c| c.is_ascii_digit())
}

/// The moment that decimal digits write, up to the greatest; a sign is no digit.
fn moment_of(digits: &[u8]) -> Option<i64>
    ensures { result ≡ moment_in digits.now }
{
    if digits.is_empty() || !are_digits(digits) {
        return None;
    }
    let Ok(text) = std::str::from_utf8(digits) else {
        return None;
    };
    let Ok(moment) = text.parse::<u64>() else {
        return None;
    };
    if moment > LATEST {
        return None;
    }
    Some(moment as i64)
}

/// The line without its spaces and carriage returns.
fn kept(alloc: Global, line: &[u8]) -> Result<Vec<u8>, AllocError>
    ensures { IfOk result (λ v. v.items ≡ filter is_kept line.now) }
{
    let mut all = Vec::new(alloc);
    'bytes: for byte in line {
        let byte = *byte;
        if !is_dropped(byte) {
            all.push(byte)?;
        }
    }
    Ok(all)
}

fn bytes_of(alloc: Global, digits: &[u8]) -> Result<Line, AllocError>
    ensures { IfOk result (λ line. shown line ≡ of_bytes (decode_of digits.now)) }
{
    match ua_hex::decode(alloc, digits) {
        Ok(bytes) => Ok(Line::Piece(bytes)),
        Err(FromHexError::OutOfMemory) => Err(AllocError),
        Err(_) => Ok(Line::Bad),
    }
}

/// What a line says of which all is kept.
fn line_of_kept(alloc: Global, line: &[u8]) -> Result<Line, AllocError>
    ensures { IfOk result (λ l. shown l ≡ content_of_kept line.now) }
{
    match line {
        [] => Ok(Line::Skipped),
        [b'#', ..] => Ok(Line::Skipped),
        [b'@', digits @ ..] => match moment_of(digits) {
            Some(moment) => Ok(Line::Moment(moment)),
            None => Ok(Line::Bad),
        },
        digits => bytes_of(alloc, digits),
    }
}

/// What a line says. One of dropped bytes alone is judged first. One that has none, or has them at its end alone, is
/// read where it lies.
fn line_of(alloc: Global, line: &[u8]) -> Result<Line, AllocError>
    ensures { IfOk result (λ l. shown l ≡ content_of line.now) }
{
    if are_dropped(line) {
        return Ok(Line::Skipped);
    }
    let (front, rest) = line.split_at(first_dropped(line));
    if are_dropped(rest) {
        return line_of_kept(alloc, front);
    }
    let line = kept(alloc, line)?;
    line_of_kept(alloc, line.as_slice())
}

/// The first line of a text, and what follows its line end, where it has one.
fn cut_line(text: &[u8]) -> (&[u8], Option<&[u8]>)
    ensures parts { slice_split (λ c. c == 10) text.now ≡ result.0.now ∷ lines_of result.1 }
    ensures shorter { IfSome result.1 (λ rest. length rest.now < length text.now) }
{
    match line_end(text) {
        None => (text, None),
        Some(end) => (&text[..end], Some(&text[end + 1..])),
    }
}

/// The pieces so far, and the moment of the next one.
#[derive(Drop)]
struct Script {
    moment: i64,
    pieces: Vec<TimedPiece>,
}

/// Takes in the line that has this number.
fn add_line(alloc: Global, script: &mut Script, number: u64, line: &[u8]) -> Result<(), ScriptFault>
    ensures ok { OnOk result (AddsLine number line.now script.old script.new) }
    ensures err { IfErr result (IsLineFault number (content_of line.now)) }
{
    match line_of(alloc, line)? {
        Line::Skipped => Ok(()),
        Line::Moment(moment) => {
            script.moment = moment;
            Ok(())
        }
        Line::Piece(bytes) => {
            let moment = script.moment;
            script.pieces.push(TimedPiece { moment, bytes })?;
            Ok(())
        }
        Line::Bad => Err(ScriptFault::BadLine(number)),
    }
}

/// The pieces that a text gives, each at the moment that the last `@` line before it sets.
///
/// From each line spaces and carriage returns are dropped. Then an empty line and one that
/// begins with `#` say nothing, `@` and a decimal number up to 9223372036854775807 is the moment
/// of the pieces after it, which is 0 at first, and an even number of hex digits is a piece. Any
/// other line is bad: `BadLine` has the number of the first such line. The call changes nothing.
pub fn script_of(alloc: Global, text: &[u8]) -> Result<Vec<TimedPiece>, ScriptFault>
    ensures { MatchResult result (λ pieces. script_in text.now ≡ Ok (map timed pieces.items)) (IsScriptFault (script_in text.now)) }
{
    let mut script = Script {
        moment: 0,
        pieces: Vec::new(alloc),
    };
    let mut number = 0u64;
    let mut rest = Some(text);
    'lines: while let Some(lines) = rest {
        let (line, behind) = cut_line(lines);
        number += 1;
        add_line(alloc, &mut script, number, line)?;
        rest = behind;
    }
    Ok(script.pieces)
}
