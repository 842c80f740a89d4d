//! What is written as JSON.

ghost use Rattle.std.specs.Prelude.{OnOk};
ghost use Rattle.ua_json.specs.Nesting.{AddsValue};

use crate::line::Line;
use ua_value::NoMemory;

/// A value that is written as one value of JSON.
pub(crate) trait Put {
    /// Writes the value, or a beginning of it where a growth is refused.
    fn put(&self, line: &mut Line) -> Result<(), NoMemory>
        ensures { OnOk result (AddsValue line.old.json.tokens line.new.json.tokens) };
}
