//! What the words of `serve` ask for.

ghost use Rattle.std.specs.Prelude.{◌≡◌, false, true, IfOk, IfErr, codes};
ghost use Rattle.clap.specs.Words.{found_of};
ghost use Rattle.ua_words.specs.Command.{IsNamed, RefusedBy, are_many, words_in};

use crate::command::matched::{count_of, is_flagged, number_in, number_of};
use crate::command::{Command, MOST_SECONDS, USUAL_SECONDS, WordFault};
use crate::source::source_of;
use clap::ArgMatches;
use std::alloc::Global;

/// The most connections at one time.
const MOST_AT_ONCE: u32 = 65_535;

/// Whether several connections are served at once.
fn are_many(matches: &ArgMatches) -> bool
    ensures { result ≡ are_many (words_in (found_of matches.now)) }
{
    matches.get_str("at-once").is_some() || matches.get_str("patience").is_some()
}

/// What `serve` asks for: connections that are served several at a time where `--at-once` or `--patience` is there, else
/// one after the other.
pub fn serve_in(alloc: Global, matches: &ArgMatches) -> Result<Command, WordFault>
    ensures asked { IfOk result (IsNamed (codes "serve") (words_in (found_of matches.now))) }
    ensures refused { IfErr result (RefusedBy (IsNamed (codes "serve") (words_in (found_of matches.now)))) }
{
    if are_many(matches) {
        serve_many_in(alloc, matches)
    } else {
        serve_in_turn(alloc, matches)
    }
}

/// The same where several connections are served at once. The words may not say `--reverse`.
fn serve_many_in(alloc: Global, matches: &ArgMatches) -> Result<Command, WordFault>
    requires { are_many (words_in (found_of matches.now)) ≡ true }
    ensures asked { IfOk result (IsNamed (codes "serve") (words_in (found_of matches.now))) }
    ensures refused { IfErr result (RefusedBy (IsNamed (codes "serve") (words_in (found_of matches.now)))) }
{
    let reverse = is_flagged(matches, "reverse");
    if reverse {
        return Err(WordFault::Bad);
    }
    let Some(settings) = matches.get_str("settings") else {
        return Err(WordFault::Bad);
    };
    let Some(address) = matches.get_str("address") else {
        return Err(WordFault::Bad);
    };
    let Some(connections) = matches.get_str("connections") else {
        return Err(WordFault::Bad);
    };
    let Some(connections) = number_of(connections, u32::MAX) else {
        return Err(WordFault::Bad);
    };
    let Some(at_once) = number_in(matches, "at-once", 1, MOST_AT_ONCE) else {
        return Err(WordFault::Bad);
    };
    let Some(patience) = number_in(matches, "patience", USUAL_SECONDS, MOST_SECONDS) else {
        return Err(WordFault::Bad);
    };
    let Ok(address) = String::from_str(alloc, address) else {
        return Err(WordFault::NoMemory);
    };
    match source_of(alloc, settings) {
        Ok(source) => Ok(Command::ServeMany {
            source,
            address,
            connections,
            at_once,
            patience,
        }),
        Err(_) => Err(WordFault::NoMemory),
    }
}

/// The same where connections are served one after the other, at most 65535 of them.
fn serve_in_turn(alloc: Global, matches: &ArgMatches) -> Result<Command, WordFault>
    requires { are_many (words_in (found_of matches.now)) ≡ false }
    ensures asked { IfOk result (IsNamed (codes "serve") (words_in (found_of matches.now))) }
    ensures refused { IfErr result (RefusedBy (IsNamed (codes "serve") (words_in (found_of matches.now)))) }
{
    let Some(settings) = matches.get_str("settings") else {
        return Err(WordFault::Bad);
    };
    let Some(address) = matches.get_str("address") else {
        return Err(WordFault::Bad);
    };
    let Some(connections) = matches.get_str("connections") else {
        return Err(WordFault::Bad);
    };
    let Some(connections) = count_of(connections) else {
        return Err(WordFault::Bad);
    };
    let reverse = is_flagged(matches, "reverse");
    let Ok(address) = String::from_str(alloc, address) else {
        return Err(WordFault::NoMemory);
    };
    match source_of(alloc, settings) {
        Ok(source) => Ok(Command::Serve {
            source,
            address,
            connections,
            reverse,
        }),
        Err(_) => Err(WordFault::NoMemory),
    }
}
