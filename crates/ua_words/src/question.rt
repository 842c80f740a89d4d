//! What `ask` can ask for.

ghost use Rattle.std.specs.Prelude.{◌≡◌, MatchOption};
ghost use Rattle.ua_words.specs.Command.{AreQuestionNames, name_of_question};
ghost use Rattle.ua_words.specs.declared.question.Question.{Question};

/// What can be asked for.
#[derive(Clone, Copy, Debug, PartialEq, Eq)]
pub enum Question {
    /// The servers that are known (OPC 10000-4, 5.5.2).
    Find,
    /// The endpoints of the server (OPC 10000-4, 5.5.4).
    Endpoints,
}

/// The names of what can be asked for.
pub fn question_names<'a>() -> &'a [&'a str]
    ensures { AreQuestionNames result }
{
    &["find", "endpoints"]
}

/// What has this name, letter for letter, or none.
pub fn question_of(text: &str) -> Option<Question>
    ensures { MatchOption result ((question : Question) → name_of_question question ≡ text.now → ⊥) (λ question. name_of_question question ≡ text.now) }
{
    match text {
        "find" => Some(Question::Find),
        "endpoints" => Some(Question::Endpoints),
        _ => None,
    }
}
