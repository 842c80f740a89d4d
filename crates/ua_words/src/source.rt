//! Where settings come from.

ghost use Rattle.std.specs.Prelude.{Some, IfOk};
ghost use Rattle.ua_words.specs.Command.{IsSourceOf};

use std::alloc::{AllocError, Global};

/// Where settings come from.
#[derive(Debug, Drop)]
pub enum Source {
    /// The built-in settings.
    Default,
    /// The file at this path.
    File(String),
}

/// The source that a word names: `default` is the built-in settings, any other text the path of a file.
pub(crate) fn source_of(alloc: Global, text: &str) -> Result<Source, AllocError>
    ensures { IfOk result (IsSourceOf (Some text.now)) }
{
    match text {
        "default" => Ok(Source::Default),
        path => Ok(Source::File(String::from_str(alloc, path)?)),
    }
}
