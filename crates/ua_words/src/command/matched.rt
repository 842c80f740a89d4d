//! What the matches of `clap` say under a name.

ghost use Rattle.std.specs.Prelude.{◌≡◌, ◌≤◌, ℕ, Option, IfOk, IfErr, IsTrue, MatchOption, Some, codes, length, option_map};
ghost use Rattle.std.specs.List.{All};
ghost use Rattle.clap.specs.Words.{first_value, found_of};
ghost use Rattle.ua_value.specs.Text.{longest};
ghost use Rattle.ua_words.specs.Command.{IsAddressOf, IsCount, IsCountOr, IsNumberOf, IsShortUrl, IsUrlOf, RefusedBy, all_values, is_given, texts_of, url_named};

use crate::command::WordFault;
use clap::ArgMatches;
use std::alloc::Global;
use std::num::ParseIntError;
use ua_address::{address_of, is_url};
use ua_value::plumbing::{LONGEST, LONGEST_URL, MOST_TEXTS};
use ua_value::{Array, UaString};

/// Whether a flag was given: its text is `true` then.
pub fn is_flagged(matches: &ArgMatches, id: &str) -> bool
    ensures { result ≡ is_given (first_value (found_of matches.now) id.now) }
{
    match matches.get_str(id) {
        Some(text) => text == "true",
        None => false,
    }
}

/// The number of connections that a text is, from 1 to 65535.
pub fn count_of(text: &str) -> Option<u16>
    ensures { MatchOption result ((n : ℕ) → IsCount 65535 text.now n → ⊥) (IsCount 65535 text.now) }
{
    match text.parse::<u16>() {
        Ok(0) => None,
        Ok(n) => Some(n),
        Err(_) => None,
    }
}

/// The number that a text is, from 1 to `most`.
pub fn number_of(text: &str, most: u32) -> Option<u32>
    ensures { MatchOption result ((n : ℕ) → IsCount most text.now n → ⊥) (IsCount most text.now) }
{
    match text.parse::<u32>() {
        Ok(0) => None,
        Ok(n) if n <= most => Some(n),
        _ => None,
    }
}

/// The number, from 1 to `most`, that the words say under a name, or the usual one where they do not.
pub fn number_in(matches: &ArgMatches, id: &str, usual: u32, most: u32) -> Option<u32>
    ensures { MatchOption result ((n : ℕ) → IsCountOr usual most (first_value (found_of matches.now) id.now) n → ⊥) (IsCountOr usual most (first_value (found_of matches.now) id.now)) }
{
    match matches.get_str(id) {
        Some(text) => number_of(text, most),
        None => Some(usual),
    }
}

/// The number of a connection that the words say, from 0 on, if they say one; none where it is no such number.
pub fn stream_in(matches: &ArgMatches) -> Option<Option<u32>>
    ensures { MatchOption result ((n : Option ℕ) → IsNumberOf 4294967295 (first_value (found_of matches.now) (codes "stream")) n → ⊥) (IsNumberOf 4294967295 (first_value (found_of matches.now) (codes "stream"))) }
{
    let Some(text) = matches.get_str("stream") else {
        return Some(None);
    };
    let number: Result<u32, ParseIntError> = text.parse();
    match number {
        Ok(n) => Some(Some(n)),
        Err(_) => None,
    }
}

/// The port that the words say, if they say one; none where it is no port.
pub fn port_in(matches: &ArgMatches) -> Option<Option<u16>>
    ensures { MatchOption result ((n : Option ℕ) → IsNumberOf 65535 (first_value (found_of matches.now) (codes "port")) n → ⊥) (IsNumberOf 65535 (first_value (found_of matches.now) (codes "port"))) }
{
    let Some(text) = matches.get_str("port") else {
        return Some(None);
    };
    let number: Result<u16, ParseIntError> = text.parse();
    match number {
        Ok(n) => Some(Some(n)),
        Err(_) => None,
    }
}

/// The url that the words give: the word for it, or without one the address, where that is a url.
fn named_url<'a>(matches: &'a ArgMatches) -> Option<&'a str>
    ensures { option_map (λ url. url.now) result ≡ url_named (first_value (found_of matches.now) (codes "url")) (first_value (found_of matches.now) (codes "address")) }
{
    if let Some(url) = matches.get_str("url") {
        return Some(url);
    }
    match matches.get_str("address") {
        Some(address) if is_url(address) => Some(address),
        _ => None,
    }
}

/// The url by which a server is called that does not open the connection, of at most 4095 bytes.
pub fn called_url(alloc: Global, matches: &ArgMatches) -> Result<String, WordFault>
    ensures asked { IfOk result (IsShortUrl (url_named (first_value (found_of matches.now) (codes "url")) (first_value (found_of matches.now) (codes "address")))) }
    ensures refused { IfErr result (RefusedBy (IsShortUrl (url_named (first_value (found_of matches.now) (codes "url")) (first_value (found_of matches.now) (codes "address"))))) }
{
    let Some(url) = named_url(matches) else {
        return Err(WordFault::Bad);
    };
    if url.len() > LONGEST_URL {
        return Err(WordFault::Bad);
    }
    match String::from_str(alloc, url) {
        Ok(url) => Ok(url),
        Err(_) => Err(WordFault::NoMemory),
    }
}

/// The url by which a server is called, of at most 4095 bytes. There is none exactly where the server opens the
/// connection.
pub fn url_in(alloc: Global, matches: &ArgMatches) -> Result<Option<String>, WordFault>
    ensures asked { IfOk result (IsUrlOf (is_given (first_value (found_of matches.now) (codes "reverse"))) (first_value (found_of matches.now) (codes "url")) (first_value (found_of matches.now) (codes "address"))) }
    ensures refused { IfErr result (RefusedBy (IsUrlOf (is_given (first_value (found_of matches.now) (codes "reverse"))) (first_value (found_of matches.now) (codes "url")) (first_value (found_of matches.now) (codes "address")))) }
{
    if is_flagged(matches, "reverse") {
        return match matches.get_str("url") {
            Some(_) => Err(WordFault::Bad),
            None => Ok(None),
        };
    }
    match called_url(alloc, matches) {
        Ok(url) => Ok(Some(url)),
        Err(fault) => Err(fault),
    }
}

/// The address that the words give, which may be a url that names it.
pub fn address_in(alloc: Global, matches: &ArgMatches) -> Result<String, WordFault>
    ensures asked { IfOk result (IsAddressOf (first_value (found_of matches.now) (codes "address"))) }
    ensures refused { IfErr result (RefusedBy (IsAddressOf (first_value (found_of matches.now) (codes "address")))) }
{
    let Some(address) = matches.get_str("address") else {
        return Err(WordFault::Bad);
    };
    match address_of(alloc, address) {
        Ok(address) => Ok(address),
        Err(_) => Err(WordFault::NoMemory),
    }
}

/// Whether each text is short enough for a message. OPC 10000-6, 5.2.2.4.
fn are_short(texts: &[&str]) -> bool
    ensures { IsTrue result → All (λ t. length t.now ≤ longest) texts.now }
{
    texts.iter().all(|text| text.len() <= LONGEST as usize)
}

/// The texts that the words say under a name, in their order; null where they say none.
pub fn texts_in(alloc: Global, matches: &ArgMatches, id: &str) -> Result<Array<UaString>, WordFault>
    ensures asked { IfOk result (λ texts. texts ≡ texts_of (all_values (found_of matches.now) id.now)) }
    ensures refused { IfErr result (λ fault. fault ≡ WordFault.NoMemory) }
{
    let Some(texts) = matches.get_strs(id) else {
        return Ok(Array::null());
    };
    // (no command line is so long)
    if texts.len() > MOST_TEXTS || !are_short(texts) {
        return Err(WordFault::NoMemory);
    }
    match Array::of_texts(alloc, texts) {
        Ok(texts) => Ok(texts),
        Err(_) => Err(WordFault::NoMemory),
    }
}
