//! Values as the lines have them.

ghost use Rattle.std.specs.Prelude.{◌≤◌, length, OnOk, string_bytes};

use sha1::Sha1;
use ua_print::Text;
use ua_service::UserTokenPolicy;
use ua_value::{Array, NoMemory, UaBytes, UaString};

/// A value of a field.
#[derive(Clone, Copy)]
pub(crate) enum Value<'a> {
    Text(&'a UaString),
    Number(i32),
    Texts(&'a Array<UaString>),
    Certificate(&'a UaBytes),
    Tokens(&'a Array<UserTokenPolicy>),
}

/// Appends a text between double quotes, or `null`.
pub(crate) fn add_text(value: &UaString, text: &mut String) -> Result<(), NoMemory>
    ensures { OnOk result (length (string_bytes text.old) ≤ length (string_bytes text.new)) }
{
    write!(text, "{}", Text(value.get().map(str::as_bytes)))
}

/// Appends a number.
pub(crate) fn add_number(number: i32, text: &mut String) -> Result<(), NoMemory>
    ensures { OnOk result (length (string_bytes text.old) ≤ length (string_bytes text.new)) }
{
    write!(text, "{number}")
}

/// Appends a text of a list, with a comma between it and one before it.
fn add_listed(is_first: bool, value: &UaString, text: &mut String) -> Result<(), NoMemory>
    ensures { OnOk result (length (string_bytes text.old) ≤ length (string_bytes text.new)) }
{
    if !is_first {
        text.push(',')?;
    }
    add_text(value, text)
}

/// Appends texts between brackets, or `null`.
fn add_texts(texts: &Array<UaString>, text: &mut String) -> Result<(), NoMemory>
    ensures { OnOk result (length (string_bytes text.old) ≤ length (string_bytes text.new)) }
{
    let Some(texts) = texts.get() else {
        return text.push_str("null");
    };
    text.push('[')?;
    for (i, value) in texts.iter().enumerate() {
        add_listed(i == 0, value, text)?;
    }
    text.push(']')
}

/// Appends the ids of token policies between brackets, or `null`.
fn add_tokens(tokens: &Array<UserTokenPolicy>, text: &mut String) -> Result<(), NoMemory>
    ensures { OnOk result (length (string_bytes text.old) ≤ length (string_bytes text.new)) }
{
    let Some(tokens) = tokens.get() else {
        return text.push_str("null");
    };
    text.push('[')?;
    for (i, token) in tokens.iter().enumerate() {
        add_listed(i == 0, &token.policy_id, text)?;
    }
    text.push(']')
}

/// Appends a digest in lower-case hex digits.
fn add_digest(digest: &[u8], text: &mut String) -> Result<(), NoMemory>
    ensures { OnOk result (length (string_bytes text.old) ≤ length (string_bytes text.new)) }
{
    for byte in digest {
        write!(text, "{byte:02x}")?;
    }
    Ok(())
}

/// Appends how many bytes a certificate has, a colon and their SHA-1, or `null`.
fn add_certificate(certificate: &UaBytes, text: &mut String) -> Result<(), NoMemory>
    ensures { OnOk result (length (string_bytes text.old) ≤ length (string_bytes text.new)) }
{
    let Some(bytes) = certificate.get() else {
        return text.push_str("null");
    };
    let size = bytes.len();
    write!(text, "{size}:")?;
    add_digest(&Sha1::digest(bytes), text)
}

/// Appends a value.
pub(crate) fn add_value(value: Value<'_>, text: &mut String) -> Result<(), NoMemory>
    ensures { OnOk result (length (string_bytes text.old) ≤ length (string_bytes text.new)) }
{
    match value {
        Value::Text(value) => add_text(value, text),
        Value::Number(number) => add_number(number, text),
        Value::Texts(texts) => add_texts(texts, text),
        Value::Certificate(certificate) => add_certificate(certificate, text),
        Value::Tokens(tokens) => add_tokens(tokens, text),
    }
}
