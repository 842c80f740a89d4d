//! The lines of fields that differ.

ghost use Rattle.std.specs.Prelude.{◌<◌, length, OnOk, string_bytes};
ghost use Rattle.std.specs.Ordering.{int_eq};
ghost use Rattle.ua_compare.specs.Said.{Says};
ghost use Rattle.ua_compare.specs.Same.{same_text, same_name};

use crate::value::{Value, add_value};
use std::alloc::Global;
use ua_value::{LocalizedText, NoMemory, UaString};

/// Appends the line of a field that differs.
pub(crate) fn add_field(
    start: &str,
    field: &str,
    wanted: Value<'_>,
    found: Value<'_>,
    text: &mut String,
) -> Result<(), NoMemory>
    ensures { OnOk result (length (string_bytes text.old) < length (string_bytes text.new)) }
{
    text.push_str(start)?;
    text.push_str(field)?;
    text.push_str(" wanted=")?;
    add_value(wanted, text)?;
    text.push_str(" found=")?;
    add_value(found, text)?;
    text.push('\n')
}

/// Appends the line of a field where it differs.
pub(crate) fn add_where(
    same: bool,
    start: &str,
    field: &str,
    wanted: Value<'_>,
    found: Value<'_>,
    text: &mut String,
) -> Result<(), NoMemory>
    ensures { OnOk result (Says same (string_bytes text.old) (string_bytes text.new)) }
{
    if same {
        return Ok(());
    }
    add_field(start, field, wanted, found, text)
}

/// The same of texts.
pub(crate) fn add_text_field(
    start: &str,
    field: &str,
    wanted: &UaString,
    found: &UaString,
    text: &mut String,
) -> Result<(), NoMemory>
    ensures { OnOk result (Says (same_text wanted.now found.now) (string_bytes text.old) (string_bytes text.new)) }
{
    let same = wanted == found;
    add_where(
        same,
        start,
        field,
        Value::Text(wanted),
        Value::Text(found),
        text,
    )
}

/// The same of numbers.
pub(crate) fn add_number_field(
    start: &str,
    field: &str,
    wanted: i32,
    found: i32,
    text: &mut String,
) -> Result<(), NoMemory>
    ensures { OnOk result (Says (int_eq wanted found) (string_bytes text.old) (string_bytes text.new)) }
{
    let same = wanted == found;
    add_where(
        same,
        start,
        field,
        Value::Number(wanted),
        Value::Number(found),
        text,
    )
}

/// The same of a name: a line for its locale, and one for its text.
pub(crate) fn add_name_fields(
    start: &str,
    wanted: &LocalizedText,
    found: &LocalizedText,
    text: &mut String,
) -> Result<(), NoMemory>
    ensures { OnOk result (Says (same_name wanted.now found.now) (string_bytes text.old) (string_bytes text.new)) }
{
    add_text_field(
        start,
        "ApplicationName.Locale",
        &wanted.locale,
        &found.locale,
        text,
    )?;
    add_text_field(
        start,
        "ApplicationName.Text",
        &wanted.text,
        &found.text,
        text,
    )
}

/// What a line begins with, with a word more.
pub(crate) fn longer(alloc: Global, start: &str, word: &str) -> Result<String, NoMemory> {
    let mut longer = String::from_str(alloc, start)?;
    longer.push_str(word)?;
    Ok(longer)
}
