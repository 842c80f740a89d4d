//! Parts behind a mask, each where its bit is set.

ghost use Rattle.std.specs.Prelude.{◌≡◌, ◌≤◌, ◌++◌, length, None, IfOk, IfSome};
ghost use Rattle.ua_value.specs.Format.{Gives, input_limit};
ghost use Rattle.ua_value.specs.Localized.{flag};
ghost use Rattle.ua_value.specs.Text.{string};
ghost use Rattle.ua_variant.specs.Flagged.{kept_at, canon_kept, canon_unless_null};

use std::alloc::Global;
use ua_value::plumbing::Parts;
use ua_value::{NoMemory, ReadFault, Sink, UaString, Wire};

/// The bit where it is set, else nothing.
pub(crate) fn bit(set: bool, bit: u8) -> u8
    ensures { result ≡ flag set bit }
{
    if set { bit } else { 0 }
}

/// A part that is kept wherever it is flagged.
#[inline(always)]
pub(crate) fn read_kept<T: Wire>(
    alloc: Global,
    flagged: bool,
    input: &[u8],
) -> Result<(Option<T>, &[u8]), ReadFault>
    requires { length input.now ≤ input_limit }
    ensures gives { Gives (λ x. (x.0, x.1.now)) result ((kept_at flagged T.format.grammar).front input.now) }
    ensures shorter { IfOk result (λ x. length x.1.now ≤ length input.now) }
{
    if !flagged {
        return Ok((None, input));
    }
    let (value, rest) = T::read_front(alloc, input)?;
    Ok((Some(value), rest))
}

pub(crate) fn kept_len<T: Wire>(part: &Option<T>) -> u64
    ensures length { result ≡ length (canon_kept T.format part.now) }
    ensures value { IfSome part.now T.format.IsValue }
    ensures bound { result ≤ T.most }
{
    match part {
        None => 0,
        Some(value) => value.len(),
    }
}

pub(crate) fn copy_kept<T: Wire>(part: &Option<T>) -> Result<Option<T>, NoMemory>
    ensures { IfOk result (λ v. v ≡ part.now) }
{
    match part {
        None => Ok(None),
        Some(value) => Ok(Some(value.copy()?)),
    }
}

/// The length of a text's canonical spelling, none where it is null.
pub(crate) fn text_len(text: &UaString) -> u64
    ensures length { result ≡ length (canon_unless_null string text.now) }
    ensures value { string.IsValue text.now }
    ensures bound { result ≤ 2147483651 }
{
    let len = text.len();
    match text.get() {
        None => 0,
        Some(_) => len,
    }
}

/// A part that is put where there is one.
#[derive(Drop)]
pub(crate) struct Kept<'a, T> {
    pub(crate) part: &'a Option<T>,
}

impl<'a, T: Wire> Parts for Kept<'a, T> {
    ghost spelling = { λ p. canon_kept T.format p.part.now };

    fn emit_parts<S: Sink>(&self, out: &mut S) -> Result<(), NoMemory> {
        match self.part {
            None => Ok(()),
            Some(value) => value.emit(out),
        }
    }
}

/// A text that is put where it is not null.
#[derive(Drop)]
pub(crate) struct UnlessNull<'a> {
    pub(crate) text: &'a UaString,
}

impl<'a> Parts for UnlessNull<'a> {
    ghost spelling = { λ p. canon_unless_null string p.text.now };

    fn emit_parts<S: Sink>(&self, out: &mut S) -> Result<(), NoMemory> {
        match self.text.get() {
            None => Ok(()),
            Some(_) => self.text.emit(out),
        }
    }
}
