//! The words of the command.

ghost use Rattle.std.specs.Prelude.{IfOk, IfErr, codes, map};
ghost use Rattle.clap.specs.Words.{found_of, subcommand_rows_of};
ghost use Rattle.clap.specs.Values.{kind_of};
ghost use Rattle.ua_words.specs.Command.{Asks, AsksFor, IsWordsFault, IsErrorFault, IsNamed, RefusedBy, NothingBy, words_in};

mod asking;
mod matched;
mod parsers;
mod serving;

use crate::capture::Capture;
use crate::command::asking::{ask_in, check_in};
use crate::command::matched::{is_flagged, port_in, stream_in};
use crate::command::parsers::parser;
use crate::command::serving::serve_in;
use crate::form::{Form, form_by};
use crate::question::{Question, question_names};
use crate::source::{Source, source_of};
use crate::type_names::{type_named, type_names};
use clap::ArgMatches;
use clap::error::ErrorKind;
use hex::FromHexError;
use std::alloc::Global;
use ua_kind::Kind;
use ua_value::{Array, UaString};

/// The seconds of a question, and those for which a client may be quiet, where the words do not say; and the most that
/// they may say.
const USUAL_SECONDS: u32 = 30;

const MOST_SECONDS: u32 = 86_400;

/// What the words ask for.
#[derive(Debug, Drop)]
pub enum Command {
    /// Answer the pieces of standard input by the settings of this source, as a server that opened the connection itself
    /// or not.
    Answer {
        source: Source,
        reverse: bool,
    },
    /// Read a value of this type from these bytes, and print it in this form.
    Value {
        kind: Kind,
        bytes: Vec<u8>,
        form: Form,
    },
    /// Show the frames of this capture in this form; of a file of packets the connections that are chosen: the one of
    /// this number, those one end of which has this port.
    Show {
        capture: Capture,
        form: Form,
        stream: Option<u32>,
        port: Option<u16>,
    },
    /// Serve so many connections, one after the other, by the settings of this source: those that come to this address,
    /// or that are made to it.
    Serve {
        source: Source,
        address: String,
        connections: u16,
        reverse: bool,
    },
    /// Serve so many connections, several at a time, by the settings of this source: those that come to this address. One
    /// is ended where no byte comes or goes for as many seconds as patience lasts.
    ServeMany {
        source: Source,
        address: String,
        connections: u32,
        at_once: u32,
        patience: u32,
    },
    /// Ask this of the server at an address, which the client calls by this url; without one, of the server that comes to
    /// the address. The request names these locales, and as its filter these URIs: of servers, or of transport profiles.
    /// The question is given so many seconds, and the answer is printed in this form.
    Ask {
        question: Question,
        locales: Array<UaString>,
        filter: Array<UaString>,
        address: String,
        url: Option<String>,
        seconds: u32,
        form: Form,
    },
    /// Ask the server at an address, which the client calls by this url, for all that it offers, within so many seconds,
    /// and lay it beside the settings of this source.
    Check {
        source: Source,
        address: String,
        url: String,
        seconds: u32,
    },
}

/// Why the words are no command.
#[derive(Debug, Drop)]
pub enum WordsFault {
    /// They ask for help or for the version, and this is the text to print.
    Shown(String),
    /// They are refused, and this is the text to print.
    Refused(String),
    /// A growth was refused.
    NoMemory,
}

/// What is wrong with words that `clap` takes.
#[derive(Clone, Copy, Debug)]
pub enum WordFault {
    /// A word is none that it may be.
    Bad,
    /// A growth was refused.
    NoMemory,
}

/// The command that the words are, which are those after the program's name.
///
/// The settings are `default`, or else the path of a file; a capture is `-`, standard input, or else
/// the path of a file. No file is read here. The call changes nothing.
///
/// # Errors
///
/// `Shown` where the words ask for help or for the version, with its text. `Refused` where they are
/// no command, with the text to print: that of `clap` where it refuses them, and `words` where it
/// takes them and the hex is none, a url is too long, or one stands beside `--reverse` or is
/// missing without it, or a filter is that of the other question. `NoMemory` where a growth was refused.
pub fn command_of(alloc: Global, words: &[&str]) -> Result<Command, WordsFault>
    ensures asked { IfOk result (AsksFor (map (λ w. w.now) words.entry.now)) }
    ensures refused { IfErr result (IsWordsFault (map (λ w. w.now) words.entry.now)) }
{
    let Ok(parser) = parser(alloc, type_names(), question_names()) else {
        return Err(WordsFault::NoMemory);
    };
    match parser.try_get_matches_from(words) {
        Ok(matches) => asked(alloc, &matches),
        Err(error) => Err(fault_of(alloc, &error)),
    }
}

/// The fault that an answer of `clap` is, which is no command.
fn fault_of(alloc: Global, error: &clap::Error) -> WordsFault
    ensures { IsErrorFault (kind_of error.now) result }
{
    let kind = error.kind();
    if kind == ErrorKind::OutOfMemory {
        return WordsFault::NoMemory;
    }
    let Ok(text) = error.to_string(alloc) else {
        return WordsFault::NoMemory;
    };
    match kind {
        ErrorKind::DisplayHelp | ErrorKind::DisplayVersion => WordsFault::Shown(text),
        _ => WordsFault::Refused(text),
    }
}

/// The command that the matches name.
fn asked(alloc: Global, matches: &ArgMatches) -> Result<Command, WordsFault>
    ensures asked { IfOk result (Asks (subcommand_rows_of matches.now)) }
    ensures refused { IfErr result (NothingBy (Asks (subcommand_rows_of matches.now))) }
{
    match command_in(alloc, matches) {
        Ok(command) => Ok(command),
        Err(WordFault::NoMemory) => Err(WordsFault::NoMemory),
        Err(WordFault::Bad) => match String::from_str(alloc, "words\n") {
            Ok(text) => Err(WordsFault::Refused(text)),
            Err(_) => Err(WordsFault::NoMemory),
        },
    }
}

fn command_in(alloc: Global, matches: &ArgMatches) -> Result<Command, WordFault>
    ensures asked { IfOk result (Asks (subcommand_rows_of matches.now)) }
    ensures refused { IfErr result (RefusedBy (Asks (subcommand_rows_of matches.now))) }
{
    let Some((name, inner)) = matches.subcommand() else {
        return Err(WordFault::Bad);
    };
    match name {
        "answer" => answer_in(alloc, inner),
        "value" => value_in(alloc, inner),
        "show" => show_in(alloc, inner),
        "serve" => serve_in(alloc, inner),
        "ask" => ask_in(alloc, inner),
        "check" => check_in(alloc, inner),
        _ => Err(WordFault::Bad),
    }
}

fn answer_in(alloc: Global, matches: &ArgMatches) -> Result<Command, WordFault>
    ensures asked { IfOk result (IsNamed (codes "answer") (words_in (found_of matches.now))) }
    ensures refused { IfErr result (RefusedBy (IsNamed (codes "answer") (words_in (found_of matches.now)))) }
{
    let Some(settings) = matches.get_str("settings") else {
        return Err(WordFault::Bad);
    };
    let reverse = is_flagged(matches, "reverse");
    match source_of(alloc, settings) {
        Ok(source) => Ok(Command::Answer { source, reverse }),
        Err(_) => Err(WordFault::NoMemory),
    }
}

fn value_in(alloc: Global, matches: &ArgMatches) -> Result<Command, WordFault>
    ensures asked { IfOk result (IsNamed (codes "value") (words_in (found_of matches.now))) }
    ensures refused { IfErr result (RefusedBy (IsNamed (codes "value") (words_in (found_of matches.now)))) }
{
    let Some(name) = matches.get_str("type") else {
        return Err(WordFault::Bad);
    };
    let Some(digits) = matches.get_str("hex") else {
        return Err(WordFault::Bad);
    };
    let Some(kind) = type_named(name) else {
        return Err(WordFault::Bad);
    };
    let form = form_by(is_flagged(matches, "show"), is_flagged(matches, "json"));
    match ua_hex::decode(alloc, digits.as_bytes()) {
        Ok(bytes) => Ok(Command::Value { kind, bytes, form }),
        Err(FromHexError::OutOfMemory) => Err(WordFault::NoMemory),
        Err(_) => Err(WordFault::Bad),
    }
}

fn show_in(alloc: Global, matches: &ArgMatches) -> Result<Command, WordFault>
    ensures asked { IfOk result (IsNamed (codes "show") (words_in (found_of matches.now))) }
    ensures refused { IfErr result (RefusedBy (IsNamed (codes "show") (words_in (found_of matches.now)))) }
{
    let form = form_by(is_flagged(matches, "all"), is_flagged(matches, "json"));
    let Some(stream) = stream_in(matches) else {
        return Err(WordFault::Bad);
    };
    let Some(port) = port_in(matches) else {
        return Err(WordFault::Bad);
    };
    match matches.get_str("file") {
        Some("-") => Ok(Command::Show {
            capture: Capture::Input,
            form,
            stream,
            port,
        }),
        Some(path) => match String::from_str(alloc, path) {
            Ok(path) => Ok(Command::Show {
                capture: Capture::File(path),
                form,
                stream,
                port,
            }),
            Err(_) => Err(WordFault::NoMemory),
        },
        None => Err(WordFault::Bad),
    }
}
