//! Texts, node ids and statuses as the command prints them.

ghost use Rattle.std.specs.Prelude.{◌≡◌, ◌<◌, ◌≤◌, ◌∷◌, ◌++◌, [], length, slice_index, take, IsAscii, IsTrue, false, OnOk, Some, string_bytes};
ghost use Rattle.std.specs.List.{flat_map};
ghost use Rattle.std.specs.Option.{option_map};
ghost use Rattle.ua_print.specs.Escape.{escape, IsEscaped};
ghost use Rattle.ua_print.specs.Printed.{escaped, hex_digit, two_digits, quoted, identifier_text, node_text, status_text};

use crate::row::add_number;
use std::fmt;
use ua_value::{Identifier, NoMemory, NodeId};

/// A text, or none: `null`, or the bytes between double quotes, of which all but the printable
/// ones of ASCII, and the double quote and the backslash, are `\x` and two lower-case digits.
#[derive(Clone, Copy)]
pub struct Text<'a>(pub Option<&'a [u8]>);

impl fmt::Display for Text<'_> {
    ghost output = { λ t. Some (quoted (option_map (λ b. b.now) t.0)) };

    fn fmt<W: fmt::Write>(&self, f: &mut fmt::Formatter<W>) -> fmt::Result {
        match self.0 {
            Some(bytes) => write!(f, "\"{}\"", Inner(bytes)),
            None => f.write_str("null"),
        }
    }
}

/// What stands between the double quotes.
#[derive(Clone, Copy)]
struct Inner<'a>(&'a [u8]);

impl fmt::Display for Inner<'_> {
    ghost output = { λ t. Some (flat_map escaped t.0.now) };

    fn fmt<W: fmt::Write>(&self, f: &mut fmt::Formatter<W>) -> fmt::Result {
        let bytes = self.0;
        let mut start = 0;
        'runs: while start < bytes.len() {
            let run = plain_run(&bytes[start..]);
            if run.is_empty() {
                write!(f, "{}", Escaped(bytes[start]))?;
                start += 1;
            } else {
                f.write_str(run)?;
                start += run.len();
            }
        }
        Ok(())
    }
}

/// Whether a byte stands for itself between double quotes.
fn is_plain(byte: u8) -> bool
    ensures same { IsTrue result → escaped byte ≡ byte ∷ [] }
    ensures ascii { IsTrue result → byte < 128 }
    ensures other { result ≡ false → IsEscaped byte }
{
    match byte {
        b'"' | b'\\' => false,
        b' '..=b'~' => true,
        _ => false,
    }
}

/// How many bytes at the front stand for themselves.
fn plain_len(bytes: &[u8]) -> usize
    ensures within { result ≤ length bytes.now }
    ensures same { flat_map escaped (take result bytes.now) ≡ take result bytes.now }
    ensures ascii { IsAscii (take result bytes.now) }
    ensures other { result < length bytes.now → IsEscaped (slice_index bytes.now result) }
{
    let mut n = 0;
    'plain: while n < bytes.len() {
        if !is_plain(bytes[n]) {
            return n;
        }
        n += 1;
    }
    n
}

/// The longest text at the front of the bytes that stands for itself, which is written at once.
fn plain_run(bytes: &[u8]) -> &str
    ensures within { length result.now ≤ length bytes.now }
    ensures front { result.now ≡ take (length result.now) bytes.now }
    ensures same { flat_map escaped result.now ≡ result.now }
    ensures other { 1 ≤ length bytes.now → length result.now ≡ 0 → IsEscaped (slice_index bytes.now 0) }
{
    unsafe { std::str::from_utf8_unchecked(&bytes[..plain_len(bytes)]) }
}

/// A byte that does not stand for itself.
#[derive(Clone, Copy)]
struct Escaped(u8);

impl fmt::Display for Escaped {
    ghost output = { λ e. Some (escape e.0) };

    fn fmt<W: fmt::Write>(&self, f: &mut fmt::Formatter<W>) -> fmt::Result {
        let byte = self.0;
        let four = [b'\\', b'x', digit(byte / 16), digit(byte % 16)];
        f.write_str(unsafe { std::str::from_utf8_unchecked(&four) })
    }
}

/// A byte as two hex digits in lower case.
#[derive(Clone, Copy)]
struct Byte(u8);

impl fmt::Display for Byte {
    ghost output = { λ b. Some (two_digits b.0) };

    fn fmt<W: fmt::Write>(&self, f: &mut fmt::Formatter<W>) -> fmt::Result {
        let byte = self.0;
        let two = [digit(byte / 16), digit(byte % 16)];
        f.write_str(unsafe { std::str::from_utf8_unchecked(&two) })
    }
}

/// A hex digit in lower case.
fn digit(n: u8) -> u8
    requires { n < 16 }
    ensures digit { result ≡ hex_digit n }
    ensures ascii { result < 128 }
{
    if n < 10 { b'0' + n } else { b'a' + (n - 10) }
}

/// Bytes as hex digits in lower case.
#[derive(Clone, Copy)]
struct Hex<'a>(&'a [u8]);

impl fmt::Display for Hex<'_> {
    ghost output = { λ h. Some (flat_map two_digits h.0.now) };

    fn fmt<W: fmt::Write>(&self, f: &mut fmt::Formatter<W>) -> fmt::Result {
        'bytes: for byte in self.0 {
            write!(f, "{}", Byte(*byte))?;
        }
        Ok(())
    }
}

/// Appends what tells a node from the others of its namespace: `i=` and a number, `s=` and a text, `g=` and a Guid, or
/// `b=` and hex digits or `null`.
fn add_identifier(text: &mut String, identifier: &Identifier) -> Result<(), NoMemory>
    ensures { OnOk result (string_bytes text.new ≡ string_bytes text.old ++ identifier_text identifier.now) }
{
    match identifier {
        Identifier::Numeric(id) => add_number(text, "i=", u64::from(*id), ""),
        Identifier::String(name) => write!(text, "s={}", Text(name.get().map(str::as_bytes))),
        Identifier::Guid(guid) => write!(text, "g={guid}"),
        Identifier::Opaque(bytes) => match bytes.get() {
            Some(bytes) => write!(text, "b={}", Hex(bytes)),
            None => text.push_str("b=null"),
        },
    }
}

/// Appends a node id: before its identifier `ns=`, the number of the namespace and `;` where that is not 0. After an
/// error a beginning of it may stand there.
pub fn add_node(text: &mut String, node: &NodeId) -> Result<(), NoMemory>
    ensures { OnOk result (string_bytes text.new ≡ string_bytes text.old ++ node_text node.now) }
{
    let namespace = node.namespace_index;
    if namespace != 0 {
        add_number(text, "ns=", u64::from(namespace), ";")?;
    }
    add_identifier(text, &node.identifier)
}

/// A status as eight hex digits in upper case.
#[derive(Clone, Copy)]
pub struct Code(pub u32);

#[tactic(auto, using(crate::proofs::Codes::eight_digits))]
impl fmt::Display for Code {
    ghost output = { λ c. Some (status_text c.0) };

    fn fmt<W: fmt::Write>(&self, f: &mut fmt::Formatter<W>) -> fmt::Result {
        write!(f, "{:08X}", self.0)
    }
}
