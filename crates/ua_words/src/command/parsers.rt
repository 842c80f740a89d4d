//! The commands of the program, as `clap` reads them.

ghost use Rattle.std.specs.Prelude.{◌≡◌, IfOk, false, codes};
ghost use Rattle.clap.specs.Words.{App, app_of, with_rule};
ghost use Rattle.clap.specs.declared.builder.command.Command.TheViews.{out-Command};
ghost use Rattle.ua_words.specs.Command.{number_rule, answer_app, value_app, show_app, serve_app, ask_app, check_app, plain, uadisc_with, with_wishes as wishes};

mod args;

use crate::command::parsers::args::{
    address_word, command, count_word, flag, index_word, json_flag, list_word, named, number_word,
    optional, required, reverse_flag, settings_word, timeout_word, type_word, with_command,
    with_word,
};
use clap::Command as Parser;
use std::alloc::{AllocError, Global};

/// The version of the program, and the logic by which it is proved, as `rt version` names it.
const VERSION: &str = "0.1.0 (logic dac8208d650f15bf)";

fn answer_parser<'a>(alloc: Global) -> Result<Parser<'a>, AllocError>
    ensures app { IfOk result (λ c. app_of c ≡ answer_app) }
    ensures local { IfOk result (λ c. (out-Command c).has_globals ≡ false) }
{
    let answer = command(
        alloc,
        "answer",
        "Answers what a client sends, in hex on standard input, as a server does",
    );
    let with_settings = with_word(Ok(answer), settings_word(alloc));
    with_word(
        with_settings,
        reverse_flag(
            alloc,
            "Answers as a server that opened the connection: its ReverseHello comes first",
        ),
    )
}

fn value_parser<'a>(alloc: Global, names: &'a [&'a str]) -> Result<Parser<'a>, AllocError>
    ensures app { IfOk result (λ c. app_of c ≡ value_app names.entry) }
    ensures local { IfOk result (λ c. (out-Command c).has_globals ≡ false) }
{
    let value = command(
        alloc,
        "value",
        "Reads one value of a built-in type from its bytes in OPC UA Binary",
    );
    let with_type = with_word(Ok(value), type_word(alloc, names));
    let with_hex = with_word(
        with_type,
        required(alloc, "hex", "HEX", "The bytes in hex, two digits a byte"),
    );
    let with_show = with_word(
        with_hex,
        flag(alloc, "show", "Prints the value itself behind its spelling"),
    );
    with_word(
        with_show,
        json_flag(alloc, "Prints one object of JSON in the place of all lines"),
    )
}

fn show_parser<'a>(alloc: Global) -> Result<Parser<'a>, AllocError>
    ensures app { IfOk result (λ c. app_of c ≡ show_app) }
    ensures local { IfOk result (λ c. (out-Command c).has_globals ≡ false) }
{
    let show = command(
        alloc,
        "show",
        "Shows the frames in the raw bytes of one direction of a connection, or in a capture of packets",
    );
    let with_file = with_word(
        Ok(show),
        required(
            alloc,
            "file",
            "FILE",
            "A file of raw bytes, or of packets (pcap or pcapng), or `-` for standard input",
        ),
    );
    let with_stream = with_word(
        with_file,
        index_word(
            alloc,
            "stream",
            "N",
            4_294_967_295,
            "Of a capture of packets: the connection of this number alone",
        ),
    );
    let with_port = with_word(
        with_stream,
        index_word(
            alloc,
            "port",
            "PORT",
            65535,
            "Of a capture of packets: the connections of this port in the place of 4840",
        ),
    );
    let with_all = with_word(
        with_port,
        flag(
            alloc,
            "all",
            "Prints all that servers answered, under the line of each answer",
        ),
    );
    with_word(
        with_all,
        json_flag(alloc, "Prints an object of JSON in the place of each line"),
    )
}

/// A parser with the words by which several connections are served at once.
fn with_many_words<'a>(
    alloc: Global,
    parser: Result<Parser<'a>, AllocError>,
) -> Result<Parser<'a>, AllocError>
    ensures app { (app : App) → IfOk parser.entry (λ p. app_of p ≡ app) → IfOk result (λ c. app_of c ≡ with_rule (with_rule app (number_rule (codes "at-once") 65535)) (number_rule (codes "patience") 86400)) }
    ensures local { IfOk parser.entry (λ p. (out-Command p).has_globals ≡ false) → IfOk result (λ c. (out-Command c).has_globals ≡ false) }
{
    let with_at_once = with_word(
        parser,
        number_word(
            alloc,
            "at-once",
            "M",
            65535,
            "How many connections are served at one time, from 1 to 65535; 1 where only --patience is given",
        ),
    );
    with_word(
        with_at_once,
        number_word(
            alloc,
            "patience",
            "SECONDS",
            86400,
            "After how many seconds in which no byte comes or goes a connection is ended, from 1 to 86400; 30 where only --at-once is given",
        ),
    )
}

fn serve_parser<'a>(alloc: Global) -> Result<Parser<'a>, AllocError>
    ensures app { IfOk result (λ c. app_of c ≡ serve_app) }
    ensures local { IfOk result (λ c. (out-Command c).has_globals ≡ false) }
{
    let serve = command(
        alloc,
        "serve",
        "Serves connections over TCP, one after the other or several at once, and says how each one ended",
    );
    let with_settings = with_word(Ok(serve), settings_word(alloc));
    let with_address = with_word(
        with_settings,
        required(
            alloc,
            "address",
            "ADDR",
            "An address and a port to listen at, as `127.0.0.1:4840`; port 0 takes a free one",
        ),
    );
    let with_count = with_word(with_address, count_word(alloc));
    let with_many = with_many_words(alloc, with_count);
    with_word(
        with_many,
        reverse_flag(
            alloc,
            "Connects to ADDR, N times in turn, in place of listening there",
        ),
    )
}

/// A parser with the words of what a request says, and of how its answer is printed.
fn with_wishes<'a>(
    alloc: Global,
    parser: Result<Parser<'a>, AllocError>,
) -> Result<Parser<'a>, AllocError>
    ensures app { (app : App) → IfOk parser.entry (λ p. app_of p ≡ app) → IfOk result (λ c. app_of c ≡ wishes app) }
    ensures local { IfOk parser.entry (λ p. (out-Command p).has_globals ≡ false) → IfOk result (λ c. (out-Command c).has_globals ≡ false) }
{
    let with_locale = with_word(
        parser,
        list_word(
            alloc,
            "locale",
            "LOCALE",
            "A locale that the request names, as `de`; the first one goes before the next",
        ),
    );
    let with_profile = with_word(
        with_locale,
        list_word(
            alloc,
            "profile",
            "URI",
            "Of endpoints: those of this transport profile alone, or of one of them",
        ),
    );
    let with_server = with_word(
        with_profile,
        list_word(
            alloc,
            "server",
            "URI",
            "Of find: the server of this URI alone, or those of several",
        ),
    );
    let with_all = with_word(
        with_server,
        flag(alloc, "all", "Prints all that the server said"),
    );
    with_word(
        with_all,
        json_flag(
            alloc,
            "Prints an object of JSON for each application or endpoint, in the place of its lines",
        ),
    )
}

fn ask_parser<'a>(alloc: Global, names: &'a [&'a str]) -> Result<Parser<'a>, AllocError>
    ensures app { IfOk result (λ c. app_of c ≡ ask_app names.entry) }
    ensures local { IfOk result (λ c. (out-Command c).has_globals ≡ false) }
{
    let ask = command(
        alloc,
        "ask",
        "Asks a server over TCP for the servers that it knows, or for its endpoints",
    );
    let with_question = with_word(
        Ok(ask),
        named(alloc, "question", "WHAT", "What to ask for", names),
    );
    let with_address = with_word(with_question, address_word(alloc));
    let with_url = with_word(
        with_address,
        optional(
            alloc,
            "url",
            "URL",
            "The url by which the server is called, of at most 4095 bytes; left out with --reverse, and where ADDR is it",
        ),
    );
    let with_reverse = with_word(
        with_url,
        reverse_flag(
            alloc,
            "Listens at ADDR for a server that connects, and calls it by the url that it says",
        ),
    );
    let with_timeout = with_word(
        with_reverse,
        timeout_word(
            alloc,
            "How many seconds the whole question has, from 1 to 86400; 30 where this is left out",
        ),
    );
    with_wishes(alloc, with_timeout)
}

fn check_parser<'a>(alloc: Global) -> Result<Parser<'a>, AllocError>
    ensures app { IfOk result (λ c. app_of c ≡ check_app) }
    ensures local { IfOk result (λ c. (out-Command c).has_globals ≡ false) }
{
    let check = command(
        alloc,
        "check",
        "Asks a server over TCP for all that it offers, and says what differs from settings",
    );
    let with_settings = with_word(Ok(check), settings_word(alloc));
    let with_address = with_word(with_settings, address_word(alloc));
    let with_url = with_word(
        with_address,
        optional(
            alloc,
            "url",
            "URL",
            "The url by which the server is called, of at most 4095 bytes; left out where ADDR is it",
        ),
    );
    with_word(
        with_url,
        timeout_word(
            alloc,
            "How many seconds each of the two questions has, from 1 to 86400; 30 where this is left out",
        ),
    )
}

/// The program without its commands, with the texts of its help and its version.
fn program<'a>(alloc: Global) -> Result<Parser<'a>, AllocError>
    ensures app { IfOk result (λ c. app_of c ≡ plain) }
    ensures local { IfOk result (λ c. (out-Command c).has_globals ≡ false) }
{
    let parser = Parser::new(alloc, "uadisc")
        .about("OPC UA up to discovery, on channels without security")
        .version(VERSION)
        .no_binary_name(true)
        .subcommand_required(true);
    parser.bin_name("uadisc")
}

/// The program, with the names of the types and those of the questions.
pub fn parser<'a>(
    alloc: Global,
    types: &'a [&'a str],
    questions: &'a [&'a str],
) -> Result<Parser<'a>, AllocError>
    ensures app { IfOk result (λ c. app_of c ≡ uadisc_with types.entry questions.entry) }
    ensures local { IfOk result (λ c. (out-Command c).has_globals ≡ false) }
{
    let parser = with_command(program(alloc), answer_parser(alloc));
    let parser = with_command(parser, value_parser(alloc, types));
    let parser = with_command(parser, show_parser(alloc));
    let parser = with_command(parser, serve_parser(alloc));
    let parser = with_command(parser, ask_parser(alloc, questions));
    with_command(parser, check_parser(alloc))
}
