//! What the words of `ask` and of `check` ask for.

ghost use Rattle.std.specs.Prelude.{ℕ, IfOk, IfErr, MatchOption, codes};
ghost use Rattle.clap.specs.Words.{first_value, found_of};
ghost use Rattle.ua_words.specs.Command.{AreAskedTexts, ArePlaces, IsCalledPlace, IsCountOr, IsFilterBy, IsFilterOf, IsNamed, RefusedBy, words_in};

use crate::command::matched::{address_in, called_url, is_flagged, number_in, texts_in, url_in};
use crate::command::{Command, MOST_SECONDS, USUAL_SECONDS, WordFault};
use crate::form::form_by;
use crate::question::{Question, question_of};
use crate::source::source_of;
use clap::ArgMatches;
use std::alloc::Global;
use ua_value::plumbing::let_go;
use ua_value::{Array, UaString};

/// The URIs under the name of one filter, where there are none under that of another.
fn filter_by(
    alloc: Global,
    matches: &ArgMatches,
    own: &str,
    other: &str,
) -> Result<Array<UaString>, WordFault>
    ensures asked { IfOk result (IsFilterBy own.now other.now (words_in (found_of matches.now))) }
    ensures refused { IfErr result (RefusedBy (IsFilterBy own.now other.now (words_in (found_of matches.now)))) }
{
    match matches.get_strs(other) {
        Some(_) => Err(WordFault::Bad),
        None => texts_in(alloc, matches, own),
    }
}

/// The filter of a question: URIs of servers, or of transport profiles. The words may not say that of the other one.
fn filter_in(
    alloc: Global,
    matches: &ArgMatches,
    question: Question,
) -> Result<Array<UaString>, WordFault>
    ensures asked { IfOk result (IsFilterOf question (words_in (found_of matches.now))) }
    ensures refused { IfErr result (RefusedBy (IsFilterOf question (words_in (found_of matches.now)))) }
{
    match question {
        Question::Find => filter_by(alloc, matches, "server", "profile"),
        Question::Endpoints => filter_by(alloc, matches, "profile", "server"),
    }
}

/// The locales and the filter of a question.
fn asked_texts(
    alloc: Global,
    matches: &ArgMatches,
    question: Question,
) -> Result<(Array<UaString>, Array<UaString>), WordFault>
    ensures asked { IfOk result (AreAskedTexts question (words_in (found_of matches.now))) }
    ensures refused { IfErr result (RefusedBy (AreAskedTexts question (words_in (found_of matches.now)))) }
{
    let filter = filter_in(alloc, matches, question)?;
    match texts_in(alloc, matches, "locale") {
        Ok(locales) => Ok((locales, filter)),
        Err(_) => {
            let_go(filter);
            Err(WordFault::NoMemory)
        }
    }
}

/// The address, and the url by which the server there is called, or none where it opens the connection.
fn places_in(alloc: Global, matches: &ArgMatches) -> Result<(String, Option<String>), WordFault>
    ensures asked { IfOk result (ArePlaces (words_in (found_of matches.now))) }
    ensures refused { IfErr result (RefusedBy (ArePlaces (words_in (found_of matches.now)))) }
{
    let address = address_in(alloc, matches)?;
    match url_in(alloc, matches) {
        Ok(url) => Ok((address, url)),
        Err(fault) => {
            let_go(address);
            Err(fault)
        }
    }
}

/// How many seconds a question has.
fn seconds_in(matches: &ArgMatches) -> Option<u32>
    ensures { MatchOption result ((n : ℕ) → IsCountOr 30 86400 (first_value (found_of matches.now) (codes "timeout")) n → ⊥) (IsCountOr 30 86400 (first_value (found_of matches.now) (codes "timeout"))) }
{
    number_in(matches, "timeout", USUAL_SECONDS, MOST_SECONDS)
}

/// What `ask` asks for.
pub fn ask_in(alloc: Global, matches: &ArgMatches) -> Result<Command, WordFault>
    ensures asked { IfOk result (IsNamed (codes "ask") (words_in (found_of matches.now))) }
    ensures refused { IfErr result (RefusedBy (IsNamed (codes "ask") (words_in (found_of matches.now)))) }
{
    let Some(question) = matches.get_str("question") else {
        return Err(WordFault::Bad);
    };
    let Some(question) = question_of(question) else {
        return Err(WordFault::Bad);
    };
    let Some(seconds) = seconds_in(matches) else {
        return Err(WordFault::Bad);
    };
    let form = form_by(is_flagged(matches, "all"), is_flagged(matches, "json"));
    let (locales, filter) = asked_texts(alloc, matches, question)?;
    match places_in(alloc, matches) {
        Ok((address, url)) => Ok(Command::Ask {
            question,
            locales,
            filter,
            address,
            url,
            seconds,
            form,
        }),
        Err(fault) => {
            let_go(locales);
            let_go(filter);
            Err(fault)
        }
    }
}

/// The address of a machine, and the url by which it is called.
fn called_place(alloc: Global, matches: &ArgMatches) -> Result<(String, String), WordFault>
    ensures asked { IfOk result (IsCalledPlace (words_in (found_of matches.now))) }
    ensures refused { IfErr result (RefusedBy (IsCalledPlace (words_in (found_of matches.now)))) }
{
    let address = address_in(alloc, matches)?;
    match called_url(alloc, matches) {
        Ok(url) => Ok((address, url)),
        Err(fault) => {
            let_go(address);
            Err(fault)
        }
    }
}

/// What `check` asks for.
pub fn check_in(alloc: Global, matches: &ArgMatches) -> Result<Command, WordFault>
    ensures asked { IfOk result (IsNamed (codes "check") (words_in (found_of matches.now))) }
    ensures refused { IfErr result (RefusedBy (IsNamed (codes "check") (words_in (found_of matches.now)))) }
{
    let Some(settings) = matches.get_str("settings") else {
        return Err(WordFault::Bad);
    };
    let Some(seconds) = seconds_in(matches) else {
        return Err(WordFault::Bad);
    };
    let (address, url) = called_place(alloc, matches)?;
    match source_of(alloc, settings) {
        Ok(source) => Ok(Command::Check {
            source,
            address,
            url,
            seconds,
        }),
        Err(_) => {
            let_go(address);
            let_go(url);
            Err(WordFault::NoMemory)
        }
    }
}
