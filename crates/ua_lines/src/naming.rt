//! Texts of the wire, and numbers that have names.

use crate::margin::Margin;
use std::fmt;
use ua_print::Text;
use ua_value::{NoMemory, UaString};

/// A text as it is printed.
pub(crate) fn shown(text: &UaString) -> Text<'_> {
    Text(text.get().map(str::as_bytes))
}

/// Appends a line of a word and a text.
pub(crate) fn add_text_line(
    text: &mut String,
    margin: Margin,
    word: &str,
    said: &UaString,
) -> Result<(), NoMemory> {
    let said = shown(said);
    writeln!(text, "{margin}{word} {said}")
}

/// A name behind a number and a blank; nothing where there is none.
#[derive(Clone, Copy)]
pub(crate) struct Behind(pub(crate) Option<&'static str>);

impl fmt::Display for Behind {
    fn fmt<W: fmt::Write>(&self, f: &mut fmt::Formatter<W>) -> fmt::Result {
        match self.0 {
            Some(name) => write!(f, " {name}"),
            None => Ok(()),
        }
    }
}

/// The name of a number, or the number where it has none.
#[derive(Clone, Copy)]
pub(crate) struct Named {
    pub(crate) number: i32,
    pub(crate) name: Option<&'static str>,
}

impl fmt::Display for Named {
    fn fmt<W: fmt::Write>(&self, f: &mut fmt::Formatter<W>) -> fmt::Result {
        match self.name {
            Some(name) => f.write_str(name),
            None => {
                let number = self.number;
                write!(f, "{number}")
            }
        }
    }
}
