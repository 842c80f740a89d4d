//! The words that a parser takes, as `clap` has them, and parsers of them.

ghost use Rattle.std.specs.Prelude.{◌≡◌, IfOk, Ok, false, codes};
ghost use Rattle.clap.specs.Words.{App, Rule, app_of, new_app, rule_of, with_rule, with_subcommand};
ghost use Rattle.clap.specs.declared.builder.command.Command.TheViews.{out-Command};
ghost use Rattle.ua_words.specs.Command.{optional_rule, word_rule, named_rule, type_rule, count_rule, number_rule, index_rule, flag_rule, list_rule, reverse_rule};

use clap::builder::ValueParser;
use clap::{Arg, ArgAction, Command as Parser};
use std::alloc::{AllocError, Global};

/// A word that may be there, with its name and its line in the help.
pub fn optional<'a>(alloc: Global, id: &'a str, name: &'a str, help: &'a str) -> Arg<'a>
    ensures local { result.global ≡ false }
    ensures rule { rule_of result ≡ optional_rule id.entry.now }
{
    Arg::new(alloc, id)
        .action(ArgAction::Set)
        .value_name(name)
        .help(help)
}

/// One that has to be there.
pub fn required<'a>(alloc: Global, id: &'a str, name: &'a str, help: &'a str) -> Arg<'a>
    ensures local { result.global ≡ false }
    ensures rule { rule_of result ≡ word_rule id.entry.now }
{
    optional(alloc, id, name, help).required(true)
}

/// A word that has to be one of these names.
pub fn named<'a>(
    alloc: Global,
    id: &'a str,
    name: &'a str,
    help: &'a str,
    names: &'a [&'a str],
) -> Arg<'a>
    ensures local { result.global ≡ false }
    ensures rule { rule_of result ≡ named_rule id.entry.now names.entry }
{
    required(alloc, id, name, help).value_parser(ValueParser::Names(names))
}

/// The word that has to be one of the names of the types.
pub fn type_word<'a>(alloc: Global, names: &'a [&'a str]) -> Arg<'a>
    ensures local { result.global ≡ false }
    ensures rule { rule_of result ≡ type_rule names.entry }
{
    named(
        alloc,
        "type",
        "TYPE",
        "The built-in type of the value",
        names,
    )
}

/// How many connections are served.
pub fn count_word<'a>(alloc: Global) -> Arg<'a>
    ensures local { result.global ≡ false }
    ensures rule { rule_of result ≡ count_rule }
{
    required(
        alloc,
        "connections",
        "N",
        "How many connections are served, from 1 to 65535; with --at-once or --patience to 4294967295",
    )
    .long("connections")
    .value_parser(ValueParser::Unsigned(1, 4_294_967_295))
}

/// A number from 1 on behind a name of its own, which may be left out.
pub fn number_word<'a>(
    alloc: Global,
    id: &'a str,
    name: &'a str,
    most: u64,
    help: &'a str,
) -> Arg<'a>
    ensures local { result.global ≡ false }
    ensures rule { rule_of result ≡ number_rule id.entry.now most }
{
    optional(alloc, id, name, help)
        .long(id)
        .value_parser(ValueParser::Unsigned(1, most))
}

/// A flag, with its line in the help.
pub fn flag<'a>(alloc: Global, id: &'a str, help: &'a str) -> Arg<'a>
    ensures local { result.global ≡ false }
    ensures rule { rule_of result ≡ flag_rule id.entry.now }
{
    Arg::new(alloc, id)
        .long(id)
        .action(ArgAction::SetTrue)
        .help(help)
}

/// A number from 0 on behind a name of its own, which may be left out.
pub fn index_word<'a>(
    alloc: Global,
    id: &'a str,
    name: &'a str,
    most: u64,
    help: &'a str,
) -> Arg<'a>
    ensures local { result.global ≡ false }
    ensures rule { rule_of result ≡ index_rule id.entry.now most }
{
    optional(alloc, id, name, help)
        .long(id)
        .value_parser(ValueParser::Unsigned(0, most))
}

/// The flag by which the server opens the connection, with its line in the help.
pub fn reverse_flag<'a>(alloc: Global, help: &'a str) -> Arg<'a>
    ensures local { result.global ≡ false }
    ensures rule { rule_of result ≡ reverse_rule }
{
    flag(alloc, "reverse", help)
}

/// The flag for JSON, with its line in the help.
pub fn json_flag<'a>(alloc: Global, help: &'a str) -> Arg<'a>
    ensures local { result.global ≡ false }
    ensures rule { rule_of result ≡ flag_rule (codes "json") }
{
    flag(alloc, "json", help)
}

/// A text behind a name of its own, which may be there again and again.
pub fn list_word<'a>(alloc: Global, id: &'a str, name: &'a str, help: &'a str) -> Arg<'a>
    ensures local { result.global ≡ false }
    ensures rule { rule_of result ≡ list_rule id.entry.now }
{
    Arg::new(alloc, id)
        .action(ArgAction::Append)
        .value_name(name)
        .help(help)
        .long(id)
}

/// A file of settings.
pub fn settings_word<'a>(alloc: Global) -> Arg<'a>
    ensures local { result.global ≡ false }
    ensures rule { rule_of result ≡ word_rule (codes "settings") }
{
    required(
        alloc,
        "settings",
        "SETTINGS",
        "A file of settings in TOML, or `default` for the built-in ones",
    )
}

/// The address of a server that is asked.
pub fn address_word<'a>(alloc: Global) -> Arg<'a>
    ensures local { result.global ≡ false }
    ensures rule { rule_of result ≡ word_rule (codes "address") }
{
    required(
        alloc,
        "address",
        "ADDR",
        "The address and port of the server, as `127.0.0.1:4840`, or a url that has them, as `opc.tcp://press:4840`",
    )
}

/// How long a question may take, with its line in the help.
pub fn timeout_word<'a>(alloc: Global, help: &'a str) -> Arg<'a>
    ensures local { result.global ≡ false }
    ensures rule { rule_of result ≡ number_rule (codes "timeout") 86400 }
{
    number_word(alloc, "timeout", "SECONDS", 86400, help)
}

/// A parser of this name without words, with its line in the help.
pub fn command<'a>(alloc: Global, name: &'a str, about: &'a str) -> Parser<'a>
    ensures app { app_of result ≡ new_app name.entry.now }
    ensures local { (out-Command result).has_globals ≡ false }
{
    Parser::new(alloc, name).about(about)
}

/// A parser with one more word, where there is a parser. Steps that take what the last one gave own nothing over a `?`,
/// which keeps their proofs short.
pub fn with_word<'a>(
    parser: Result<Parser<'a>, AllocError>,
    word: Arg<'a>,
) -> Result<Parser<'a>, AllocError>
    requires { word.global ≡ false }
    ensures app { (app : App) (rule : Rule) → IfOk parser.entry (λ p. app_of p ≡ app) → rule_of word.entry ≡ rule → IfOk result (λ c. app_of c ≡ with_rule app rule) }
    ensures local { IfOk parser.entry (λ p. (out-Command p).has_globals ≡ false) → IfOk result (λ c. (out-Command c).has_globals ≡ false) }
{
    match parser {
        Ok(parser) => parser.arg(word),
        Err(error) => Err(error),
    }
}

/// Both, where there are both. Of an `A` and a `B` the prover follows nothing.
fn both<A: Drop, B: Drop>(
    a: Result<A, AllocError>,
    b: Result<B, AllocError>,
) -> Result<(A, B), AllocError>
    ensures { IfOk result (λ x. (a ≡ Ok x.0) × (b ≡ Ok x.1)) }
{
    Ok((a?, b?))
}

/// A parser with one more command, where there are both.
pub fn with_command<'a>(
    parser: Result<Parser<'a>, AllocError>,
    command: Result<Parser<'a>, AllocError>,
) -> Result<Parser<'a>, AllocError>
    ensures app { (app sub : App) → IfOk parser.entry (λ p. app_of p ≡ app) → IfOk command.entry (λ c. app_of c ≡ sub) → IfOk command.entry (λ c. (out-Command c).has_globals ≡ false) → IfOk result (λ c. app_of c ≡ with_subcommand app sub.top) }
    ensures local { IfOk parser.entry (λ p. (out-Command p).has_globals ≡ false) → IfOk command.entry (λ p. (out-Command p).has_globals ≡ false) → IfOk result (λ c. (out-Command c).has_globals ≡ false) }
{
    let (parser, command) = both(parser, command)?;
    parser.subcommand(command)
}
