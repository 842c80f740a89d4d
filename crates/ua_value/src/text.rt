//! Texts (OPC 10000-6, 5.2.2.4): a length in four bytes and UTF-8, or -1 for none.
#![tactic(auto, unfolding(crate::specs::Text::bytes_of))]

ghost use Rattle.std.specs.Prelude.{◌≡◌, ◌≤◌, ◌<◌, ◌↔◌, length, if◌then◌else◌, Some, None, option_map, option_copied, string_bytes, bytes_eq, IfSome, IfOk, IfErr, IsErrOf};
ghost use Rattle.std.specs.Option.{option_eq};
ghost use Rattle.std.specs.Cmp.{partial_equiv_from_equiv};
ghost use Rattle.std.specs.Cmp.Lexicographic.{nat_list_eq_equiv, options_equiv};
ghost use Rattle.std.specs.Str.{is_utf8};
ghost use Rattle.ua_value.specs.Format.{Peeks};
ghost use Rattle.ua_value.specs.Text.{string, longest};
ghost use Rattle.ua_value.specs.TextLaws.{lawful_string};

use crate::ascii::is_short_ascii;
use crate::bytes::{LONGEST, bytes_front};
use crate::fault::{NoMemory, ReadFault, ValueFault};
use crate::wire::{Sink, Wire};
use std::alloc::Global;
use std::marker::Model;

/// A text of at most [`LONGEST`] bytes, or none. No text and the empty text are different values.
#[derive(Debug, Drop)]
pub struct UaString {
    text: Option<String>,
}

impl Model for UaString {
    ghost use Rattle.std.specs.Prelude.{◌≤◌, ℕ, List, Option, option_map, string_bytes, string_len, IfSome};
    ghost use Rattle.ua_value.specs.Text.{longest};

    ghost Value = { Option (List ℕ) };

    ghost view = { λ s. option_map string_bytes s.text };

    ghost invariant = { λ s. IfSome s.text (λ t. string_len t ≤ longest) };
}

/// Bytes of the longest url that an end of a connection takes. OPC 10000-6, 7.1.2.3 and 7.1.2.6.
pub const LONGEST_URL: usize = 4095;

/// Bytes from which on a text is tested 64 at a time.
const LONG: usize = 64;

/// The text that the bytes are, if they are UTF-8.
#[tactic(auto, using(crate::proofs::Utf8::utf8_yes, crate::proofs::Utf8::utf8_no))]
fn text_of(bytes: &[u8]) -> Option<&str>
    ensures { option_copied result ≡ (if is_utf8 bytes.now then Some bytes.now else None) }
{
    if bytes.len() >= LONG {
        return long_text_of(bytes);
    }
    // Most texts are ASCII, which is seen by a few comparisons. Of another text `from_utf8` judges all.
    if is_short_ascii(bytes) {
        return Some(unsafe { std::str::from_utf8_unchecked(bytes) });
    }
    match std::str::from_utf8(bytes) {
        Ok(text) => Some(text),
        Err(_) => None,
    }
}

/// The same of a long text, in a frame of its own: the test keeps its blocks there.
#[inline(never)]
#[tactic(auto, using(crate::proofs::Utf8::utf8_yes, crate::proofs::Utf8::utf8_no))]
fn long_text_of(bytes: &[u8]) -> Option<&str>
    ensures { option_copied result ≡ (if is_utf8 bytes.now then Some bytes.now else None) }
{
    match simdutf8::basic::from_utf8(bytes) {
        Ok(text) => Some(text),
        Err(_) => None,
    }
}

/// The String at the front (OPC 10000-6, 5.2.2.4), lent from the bytes, and what follows it. `None` where no beginning
/// of the bytes spells one: they end before it does, its length is below -1, or it is not UTF-8.
#[tactic(auto, using(crate::proofs::Tested::utf8_tested))]
pub fn string_front(input: &[u8]) -> Option<(Option<&str>, &[u8])>
    ensures front { option_map (λ p. (option_copied p.0, p.1.now)) result ≡ string.grammar.front input.now }
    ensures shorter { IfSome result (λ p. length p.1.now ≤ length input.now) }
{
    let (bytes, rest) = bytes_front(input)?;
    match bytes {
        None => Some((None, rest)),
        Some(bytes) => {
            let text = text_of(bytes)?;
            Some((Some(text), rest))
        }
    }
}

/// The String at the front (OPC 10000-6, 5.2.2.4), lent from the bytes, and how many of them spell it. `None` where no
/// beginning of the bytes spells one: they end before it does, its length is below -1, or it is not UTF-8.
pub fn peek_string(input: &[u8]) -> Option<(Option<&str>, usize)>
    ensures { Peeks string input.now (option_map (λ p. (option_copied p.0, p.1)) result) }
{
    match string_front(input) {
        None => None,
        Some((text, rest)) => Some((text, input.len() - rest.len())),
    }
}

impl UaString {
    /// The null text, which is not the empty one.
    pub fn null() -> UaString
        ensures { result ≡ None }
    {
        UaString { text: None }
    }

    /// A copy of the text, which has at most [`LONGEST`] bytes (OPC 10000-6, 5.2.2.4).
    ///
    /// # Errors
    ///
    /// `TooLong` exactly where it has more; else `NoMemory` where the room for the copy is refused.
    pub fn new(alloc: Global, text: &str) -> Result<UaString, ValueFault>
        ensures ok { IfOk result (λ v. v ≡ Some text.now) }
        ensures too_long { IsErrOf result ValueFault.TooLong ↔ (longest < length text.now) }
    {
        if text.len() > LONGEST as usize {
            return Err(ValueFault::TooLong);
        }
        Ok(UaString {
            text: Some(String::from_str(alloc, text)?),
        })
    }

    /// The text as it is, which has at most [`LONGEST`] bytes (OPC 10000-6, 5.2.2.4). It takes no memory.
    ///
    /// # Errors
    ///
    /// `TooLong` exactly where it has more; the text is then dropped. No other fault comes.
    pub fn from_string(text: String) -> Result<UaString, ValueFault>
        ensures ok { IfOk result (λ v. v ≡ Some (string_bytes text)) }
        ensures too_long { IsErrOf result ValueFault.TooLong ↔ (longest < length (string_bytes text)) }
        ensures fault { IfErr result (λ e. e ≡ ValueFault.TooLong) }
    {
        if text.len() > LONGEST as usize {
            Err(ValueFault::TooLong)
        } else {
            Ok(UaString { text: Some(text) })
        }
    }

    /// The text, or `None` where there is none. It takes no memory.
    pub fn into_string(self) -> Option<String>
        ensures { option_map string_bytes result ≡ self }
    {
        self.text
    }

    /// The text, or `None` where there is none.
    pub fn get(&self) -> Option<&str>
        ensures { option_copied result ≡ self.now }
    {
        match &self.text {
            None => None,
            Some(text) => Some(text.as_str()),
        }
    }
}

/// Equal where both are none, or both have the same bytes.
impl PartialEq for UaString {
    ghost eq = { option_eq bytes_eq };

    ghost laws = { partial_equiv_from_equiv (options_equiv nat_list_eq_equiv) };

    fn eq(&self, other: &UaString) -> bool {
        match (self.get(), other.get()) {
            (None, None) => true,
            (Some(a), Some(b)) => a == b,
            _ => false,
        }
    }
}

impl Eq for UaString {
    ghost laws = { options_equiv nat_list_eq_equiv };
}

impl Wire for UaString {
    ghost format = { string };

    ghost most = { 2147483651 };

    ghost Grows = { Unit {0} };

    fn len(&self) -> u64 {
        match &self.text {
            None => 4,
            Some(text) => 4 + text.len() as u64,
        }
    }

    fn emit<S: Sink>(&self, out: &mut S) -> Result<(), NoMemory> {
        match &self.text {
            None => out.put(&[255, 255, 255, 255]),
            Some(text) => {
                out.put(&(text.len() as u32).to_le_bytes())?;
                out.put(text.as_bytes())
            }
        }
    }

    fn copy(&self) -> Result<UaString, NoMemory> {
        match &self.text {
            None => Ok(UaString::null()),
            Some(text) => Ok(UaString {
                text: Some(text.clone()?),
            }),
        }
    }

    fn read_front(alloc: Global, input: &[u8]) -> Result<(UaString, &[u8]), ReadFault> {
        match string_front(input) {
            None => Err(ReadFault::Refused),
            Some((None, rest)) => Ok((UaString::null(), rest)),
            Some((Some(text), rest)) => Ok((
                UaString {
                    text: Some(String::from_str(alloc, text)?),
                },
                rest,
            )),
        }
    }

    fn most_in(bytes: usize) -> usize {
        bytes / 4
    }

    ghost laws = { lawful_string };
}
