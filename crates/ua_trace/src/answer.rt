//! All that a server answered, in lines under that of its message.

ghost use Rattle.std.specs.Prelude.{IfOk, OnOk, string_bytes};
ghost use Rattle.ua_trace.specs.Under.{AddsUnder, AreUnder, IsLine};

use std::alloc::{AllocError, Global};
use ua_lines::{add_application, add_endpoint};
use ua_service::{Response, read_response};
use ua_value::plumbing::let_go;
use ua_value::{NoMemory, ReadFault};
use ua_walk::{join, size_of};

/// The most bytes that a reader takes, which no machine holds.
const MOST_BYTES: usize = 1 << 60;

/// Appends the lines of an answer, as `ask --all` prints them; those of a failed service are none.
fn add_response(alloc: Global, text: &mut String, response: &Response) -> Result<(), NoMemory> {
    match response {
        Response::FindServers(answer) => {
            for application in answer.servers.get().unwrap_or(&[]) {
                add_application(text, application, 0)?;
            }
            Ok(())
        }
        Response::GetEndpoints(answer) => {
            for endpoint in answer.endpoints.get().unwrap_or(&[]) {
                add_endpoint(alloc, text, endpoint)?;
            }
            Ok(())
        }
        Response::Fault(_) => Ok(()),
    }
}

/// Appends the lines of the answer that a body is, if it is one.
fn add_body(alloc: Global, text: &mut String, body: &[u8]) -> Result<(), NoMemory> {
    if body.len() > MOST_BYTES {
        return Err(AllocError);
    }
    match read_response(alloc, body) {
        Ok(response) => {
            let added = add_response(alloc, text, &response);
            let_go(response);
            added
        }
        Err(ReadFault::Refused) => Ok(()),
        Err(ReadFault::NoMemory) => Err(AllocError),
    }
}

/// Appends a line behind four blanks.
fn add_line(text: &mut String, line: &str) -> Result<(), NoMemory>
    requires under { AreUnder (string_bytes text.old) }
    requires line { IsLine line.now }
    ensures { OnOk result (AreUnder (string_bytes text.new)) }
{
    text.push_str("    ")?;
    text.push_str(line)?;
    text.push_str("\n")
}

/// Appends each line of a text behind four blanks; each ends with a line end.
fn add_lines(text: &mut String, lines: &str) -> Result<(), NoMemory>
    requires { AreUnder (string_bytes text.old) }
    ensures { OnOk result (AreUnder (string_bytes text.new)) }
{
    let mut left = lines;
    'lines: while let Some((line, rest)) = left.split_once('\n') {
        add_line(text, line)?;
        left = rest;
    }
    Ok(())
}

/// Each line of a text behind four blanks.
fn indented(alloc: Global, lines: &str) -> Result<String, NoMemory>
    ensures { IfOk result (λ text. AreUnder (string_bytes text)) }
{
    let mut text = String::new(alloc);
    match add_lines(&mut text, lines) {
        Ok(()) => Ok(text),
        Err(e) => Err(e),
    }
}

/// The lines of `ask --all` of the answer to FindServers or GetEndpoints of which all of these bytes are the body, each
/// behind four blanks; none where they are no such body. OPC 10000-4, 5.5.2 and 5.5.4.
fn lines_under(alloc: Global, body: &[u8]) -> Result<String, NoMemory>
    ensures { IfOk result (λ text. AreUnder (string_bytes text)) }
{
    let mut lines = String::new(alloc);
    let under = match add_body(alloc, &mut lines, body) {
        Ok(()) => indented(alloc, lines.as_str()),
        Err(e) => Err(e),
    };
    let_go(lines);
    under
}

/// The same of a body in parts.
fn lines_under_parts(alloc: Global, parts: &[&[u8]]) -> Result<String, NoMemory>
    ensures { IfOk result (λ text. AreUnder (string_bytes text)) }
{
    match parts {
        [body] => lines_under(alloc, body),
        _ => {
            let size = size_of(parts)?;
            let body = join(alloc, parts, size)?;
            let lines = lines_under(alloc, &body);
            let_go(body);
            lines
        }
    }
}

/// Appends the lines that stand under that of a message whose body is these parts joined.
pub(crate) fn add_under(alloc: Global, text: &mut String, parts: &[&[u8]]) -> Result<(), NoMemory>
    ensures { OnOk result (AddsUnder (string_bytes text.old) (string_bytes text.new)) }
{
    match lines_under_parts(alloc, parts) {
        Ok(lines) => text.push_str(lines.as_str()),
        Err(e) => Err(e),
    }
}
