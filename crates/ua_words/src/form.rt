//! How much a command prints, and in which form.

ghost use Rattle.std.specs.Prelude.{◌≡◌};
ghost use Rattle.ua_words.specs.Command.{form_of};

/// How much is printed, and in which form.
#[derive(Clone, Copy, Debug, PartialEq, Eq)]
pub enum Form {
    /// The lines that are always there.
    Lines,
    /// These, and behind them all else that is known, for people.
    Whole,
    /// All that is known, in JSON: an object a line.
    Json,
}

/// The form that two flags ask for; that of JSON goes before the other.
pub(crate) fn form_by(whole: bool, json: bool) -> Form
    ensures { result ≡ form_of whole json }
{
    if json {
        Form::Json
    } else if whole {
        Form::Whole
    } else {
        Form::Lines
    }
}
