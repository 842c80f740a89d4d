//! What came in the place of an answer.

ghost use Rattle.std.specs.Prelude.{◌≡◌, OnOk, OnErr, string_bytes};
ghost use Rattle.ua_json.specs.Lines.{AppendsLine};
ghost use Rattle.ua_json.specs.Nesting.{AddsMembers};

use crate::line::Line;
use ua_value::{NoMemory, StatusCode, UaString};

/// Adds the line of an object of one field with a status.
fn add_status(text: &mut String, name: &str, status: u32) -> Result<(), NoMemory>
    ensures line { OnOk result (AppendsLine (string_bytes text.old) (string_bytes text.new)) }
    ensures refused { OnErr result (string_bytes text.new ≡ string_bytes text.old) }
{
    let mut line = Line::new(*text.allocator())?;
    let put = line.field(name, &StatusCode(status));
    line.add_to(text, put)
}

/// Appends the line of a service that failed with this status: the `ServiceResult` of a ServiceFault (OPC 10000-4, 7.34).
///
/// # Errors
///
/// `NoMemory` where a growth was refused; the text is then as it was.
pub fn add_service_fault(text: &mut String, status: u32) -> Result<(), NoMemory>
    ensures line { OnOk result (AppendsLine (string_bytes text.old) (string_bytes text.new)) }
    ensures refused { OnErr result (string_bytes text.new ≡ string_bytes text.old) }
{
    add_status(text, "ServiceResult", status)
}

/// Appends the line of an answer that the server gave up with this status: its `Abort` (OPC 10000-6, 6.7.3).
///
/// # Errors
///
/// `NoMemory` where a growth was refused; the text is then as it was.
pub fn add_abort(text: &mut String, status: u32) -> Result<(), NoMemory>
    ensures line { OnOk result (AppendsLine (string_bytes text.old) (string_bytes text.new)) }
    ensures refused { OnErr result (string_bytes text.new ≡ string_bytes text.old) }
{
    add_status(text, "Abort", status)
}

/// Appends the line of what a server sent that is refused with this status.
///
/// # Errors
///
/// `NoMemory` where a growth was refused; the text is then as it was.
pub fn add_broken(text: &mut String, status: u32) -> Result<(), NoMemory>
    ensures line { OnOk result (AppendsLine (string_bytes text.old) (string_bytes text.new)) }
    ensures refused { OnErr result (string_bytes text.new ≡ string_bytes text.old) }
{
    add_status(text, "Refused", status)
}

/// The status and the reason of an error.
pub(crate) fn put_error(line: &mut Line, status: u32, reason: &UaString) -> Result<(), NoMemory>
    ensures { OnOk result (AddsMembers line.old.json.tokens line.new.json.tokens) }
{
    line.field("Error", &StatusCode(status))?;
    line.field("Reason", reason)
}

/// Appends the line of a server that gave up the connection with this status and a reason, which may be null: the fields
/// of its error message (OPC 10000-6, 7.1.2.5).
///
/// # Errors
///
/// `NoMemory` where a growth was refused; the text is then as it was.
pub fn add_error(text: &mut String, status: u32, reason: &UaString) -> Result<(), NoMemory>
    ensures line { OnOk result (AppendsLine (string_bytes text.old) (string_bytes text.new)) }
    ensures refused { OnErr result (string_bytes text.new ≡ string_bytes text.old) }
{
    let mut line = Line::new(*text.allocator())?;
    let put = put_error(&mut line, status, reason);
    line.add_to(text, put)
}
