//! Texts in a language (OPC 10000-6, 5.2.2.14): a mask that says which parts follow, and the parts.

ghost use Rattle.std.specs.Prelude.{◌≡◌, ◌≤◌, ◌+◌, ◌++◌, length, OnOk, OnErr};
ghost use Rattle.ua_value.specs.Format.{AppendsPart};
ghost use Rattle.ua_value.specs.Text.{string};
ghost use Rattle.ua_value.specs.Localized.{localized_text, is_there, canon_part};
ghost use Rattle.ua_value.specs.LocalizedLaws.{lawful_localized};

use crate::fault::{NoMemory, ReadFault};
use crate::fields::read_part;
use crate::text::UaString;
use crate::wire::{Sink, Wire};
use std::alloc::Global;

/// A text and the locale of its language, as `en-US`. A part that is absent is null; a part that is flagged and null
/// reads as absent.
#[derive(Debug, PartialEq, Eq, Drop)]
pub struct LocalizedText {
    pub locale: UaString,
    pub text: UaString,
}

/// Puts a part, which has no bytes where it is null.
pub(crate) fn emit_part<S: Sink>(value: &UaString, out: &mut S) -> Result<(), NoMemory>
    ensures ok { OnOk result (S.contents out.new ≡ S.contents out.old ++ canon_part value.now) }
    ensures err { OnErr result (AppendsPart (S.contents out.old) (S.contents out.new) (canon_part value.now)) }
{
    match value.get() {
        None => Ok(()),
        Some(_) => value.emit(out),
    }
}

#[tactic(auto, unfolding(crate::specs::Text::bytes_of))]
pub(crate) fn part_len(value: &UaString) -> u64
    ensures length { result ≡ length (canon_part value.now) }
    ensures value { string.IsValue value.now }
    ensures bound { result ≤ 2147483651 }
{
    match value.get() {
        None => 0,
        Some(_) => value.len(),
    }
}

pub(crate) fn is_flagged(value: &UaString) -> bool
    ensures { result ≡ is_there value.now }
{
    match value.get() {
        None => false,
        Some(_) => true,
    }
}

#[tactic(auto, unfolding(crate::specs::Localized::localized_text))]
impl Wire for LocalizedText {
    ghost format = { localized_text };

    ghost most = { 1 + 2147483651 + 2147483651 };

    ghost Grows = { Unit {0} };

    fn len(&self) -> u64 {
        1 + part_len(&self.locale) + part_len(&self.text)
    }

    fn emit<S: Sink>(&self, out: &mut S) -> Result<(), NoMemory> {
        let locale = if is_flagged(&self.locale) { 1 } else { 0 };
        let text = if is_flagged(&self.text) { 2 } else { 0 };
        out.put(&[locale + text])?;
        emit_part(&self.locale, out)?;
        emit_part(&self.text, out)
    }

    fn copy(&self) -> Result<LocalizedText, NoMemory> {
        Ok(LocalizedText {
            locale: self.locale.copy()?,
            text: self.text.copy()?,
        })
    }

    fn read_front(alloc: Global, input: &[u8]) -> Result<(LocalizedText, &[u8]), ReadFault> {
        let [mask, rest @ ..] = input else {
            return Err(ReadFault::Refused);
        };
        let mask = *mask;
        if mask >= 4 {
            return Err(ReadFault::Refused);
        }
        let (locale, rest) = read_part(alloc, mask & 1 != 0, UaString::null(), rest)?;
        let (text, rest) = read_part(alloc, mask & 2 != 0, UaString::null(), rest)?;
        Ok((LocalizedText { locale, text }, rest))
    }

    fn most_in(bytes: usize) -> usize {
        bytes
    }

    ghost laws = { lawful_localized };
}
