//! What is said of a connection in a capture, and of the capture's file, beside frames.

ghost use Rattle.std.specs.Prelude.{◌≡◌, OnOk, OnErr, string_bytes};
ghost use Rattle.ua_json.specs.Lines.{AppendsLine};
ghost use Rattle.ua_json.specs.Nesting.{AddsMembers};

use crate::line::Line;
use crate::origin::{Origin, put_moment, put_origin};
use std::alloc::Global;
use std::fmt;
use ua_value::NoMemory;

fn put_stream<T: fmt::Display>(
    line: &mut Line,
    number: usize,
    moment: Option<u64>,
    client: &T,
    server: &T,
) -> Result<(), NoMemory>
    ensures { OnOk result (AddsMembers line.old.json.tokens line.new.json.tokens) }
{
    line.count("Stream", number)?;
    put_moment(line, moment)?;
    line.key("Client")?;
    line.shown(client)?;
    line.key("Server")?;
    line.shown(server)
}

/// Adds the line of a connection that begins: its number, the moment in nanoseconds since 1970, where one is known, and
/// its two ends, the one that opened it first.
///
/// # Errors
///
/// `NoMemory` where a growth was refused; the text is then as it was.
pub fn add_stream<T: fmt::Display>(
    alloc: Global,
    text: &mut String,
    number: usize,
    moment: Option<u64>,
    client: &T,
    server: &T,
) -> Result<(), NoMemory>
    ensures line { OnOk result (AppendsLine (string_bytes text.old) (string_bytes text.new)) }
    ensures refused { OnErr result (string_bytes text.new ≡ string_bytes text.old) }
{
    let mut line = Line::new(alloc)?;
    let put = put_stream(&mut line, number, moment, client, server);
    line.add_to(text, put)
}

fn put_note(
    line: &mut Line,
    origin: Option<Origin>,
    offset: usize,
    note: &str,
) -> Result<(), NoMemory>
    ensures { OnOk result (AddsMembers line.old.json.tokens line.new.json.tokens) }
{
    put_origin(line, origin)?;
    line.count("Offset", offset)?;
    line.key("Note")?;
    line.text(note)
}

/// Adds the line of what a word says of a place in the bytes of one direction; in front where these come from, if that is said.
///
/// # Errors
///
/// `NoMemory` where a growth was refused; the text is then as it was.
pub fn add_note(
    alloc: Global,
    text: &mut String,
    origin: Option<Origin>,
    offset: usize,
    note: &str,
) -> Result<(), NoMemory>
    ensures line { OnOk result (AppendsLine (string_bytes text.old) (string_bytes text.new)) }
    ensures refused { OnErr result (string_bytes text.new ≡ string_bytes text.old) }
{
    let mut line = Line::new(alloc)?;
    let put = put_note(&mut line, origin, offset, note);
    line.add_to(text, put)
}

/// An object of one field with a number.
fn put_count(line: &mut Line, name: &str, count: u64) -> Result<(), NoMemory>
    ensures { OnOk result (AddsMembers line.old.json.tokens line.new.json.tokens) }
{
    line.key(name)?;
    line.unsigned(count)
}

/// Adds the line of how many fragments of datagrams were passed over (RFC 791, 3.2).
///
/// # Errors
///
/// `NoMemory` where a growth was refused; the text is then as it was.
pub fn add_fragments(alloc: Global, text: &mut String, count: u64) -> Result<(), NoMemory>
    ensures line { OnOk result (AppendsLine (string_bytes text.old) (string_bytes text.new)) }
    ensures refused { OnErr result (string_bytes text.new ≡ string_bytes text.old) }
{
    let mut line = Line::new(alloc)?;
    let put = put_count(&mut line, "Fragments", count);
    line.add_to(text, put)
}

/// Adds the line of how many segments are of connections that are not followed.
///
/// # Errors
///
/// `NoMemory` where a growth was refused; the text is then as it was.
pub fn add_unfollowed(alloc: Global, text: &mut String, count: u64) -> Result<(), NoMemory>
    ensures line { OnOk result (AppendsLine (string_bytes text.old) (string_bytes text.new)) }
    ensures refused { OnErr result (string_bytes text.new ≡ string_bytes text.old) }
{
    let mut line = Line::new(alloc)?;
    let put = put_count(&mut line, "Unfollowed", count);
    line.add_to(text, put)
}

fn put_cut_file(line: &mut Line, offset: u64, left: usize) -> Result<(), NoMemory>
    ensures { OnOk result (AddsMembers line.old.json.tokens line.new.json.tokens) }
{
    line.key("FileOffset")?;
    line.unsigned(offset)?;
    line.count("Cut", left)
}

/// Adds the line of a file that ends within what begins at this offset, so many bytes behind it.
///
/// # Errors
///
/// `NoMemory` where a growth was refused; the text is then as it was.
pub fn add_cut_file(
    alloc: Global,
    text: &mut String,
    offset: u64,
    left: usize,
) -> Result<(), NoMemory>
    ensures line { OnOk result (AppendsLine (string_bytes text.old) (string_bytes text.new)) }
    ensures refused { OnErr result (string_bytes text.new ≡ string_bytes text.old) }
{
    let mut line = Line::new(alloc)?;
    let put = put_cut_file(&mut line, offset, left);
    line.add_to(text, put)
}

fn put_file_fault(line: &mut Line, offset: u64, fault: &str) -> Result<(), NoMemory>
    ensures { OnOk result (AddsMembers line.old.json.tokens line.new.json.tokens) }
{
    line.key("FileOffset")?;
    line.unsigned(offset)?;
    line.key("Fault")?;
    line.text(fault)
}

/// Adds the line of a file that is not read on from this offset, and why.
///
/// # Errors
///
/// `NoMemory` where a growth was refused; the text is then as it was.
pub fn add_file_fault(
    alloc: Global,
    text: &mut String,
    offset: u64,
    fault: &str,
) -> Result<(), NoMemory>
    ensures line { OnOk result (AppendsLine (string_bytes text.old) (string_bytes text.new)) }
    ensures refused { OnErr result (string_bytes text.new ≡ string_bytes text.old) }
{
    let mut line = Line::new(alloc)?;
    let put = put_file_fault(&mut line, offset, fault);
    line.add_to(text, put)
}
