//! Texts and arrays of them, made of texts that are lent and are short enough, so that only want of memory refuses them.

ghost use Rattle.std.specs.Prelude.{◌≡◌, ◌≤◌, Some, map, length, IfOk};
ghost use Rattle.std.specs.List.{All};
ghost use Rattle.ua_value.specs.Text.{longest};

use crate::array::Array;
use crate::fault::NoMemory;
use crate::text::UaString;
use std::alloc::Global;

/// The most texts that [`Array::of_texts`] takes: so many of [`crate::LONGEST`] bytes each fit into one array.
pub const MOST_TEXTS: usize = 268_435_456;

impl UaString {
    /// A copy of the text, which has at most [`crate::LONGEST`] bytes.
    pub fn of_text(alloc: Global, text: &str) -> Result<UaString, NoMemory>
        requires { length text.now ≤ longest }
        ensures { IfOk result (λ v. v ≡ Some text.now) }
    {
        match UaString::from_string(String::from_str(alloc, text)?) {
            Ok(copy) => Ok(copy),
            Err(_) => unreachable!(),
        }
    }
}

fn copies(alloc: Global, texts: &[&str]) -> Result<Vec<UaString>, NoMemory>
    requires { All (λ t. length t.now ≤ longest) texts.now }
    ensures { IfOk result (λ v. v.items ≡ map (λ t. Some t.now) texts.now) }
{
    let mut copies = Vec::with_capacity(alloc, texts.len())?;
    for text in texts {
        copies.push(UaString::of_text(alloc, text)?)?;
    }
    Ok(copies)
}

impl Array<UaString> {
    /// The array of copies of the texts, in their order; none of them is null. There are at most [`MOST_TEXTS`] of them, and each has at most
    /// [`crate::LONGEST`] bytes.
    pub fn of_texts(alloc: Global, texts: &[&str]) -> Result<Array<UaString>, NoMemory>
        requires count { length texts.now ≤ MOST_TEXTS }
        requires lengths { All (λ t. length t.now ≤ longest) texts.now }
        ensures { IfOk result (λ v. v ≡ Some (map (λ t. Some t.now) texts.now)) }
    {
        match Array::new(copies(alloc, texts)?) {
            Ok(array) => Ok(array),
            Err(_) => unreachable!(),
        }
    }
}
