//! Diagnostics.

ghost use Rattle.std.specs.Prelude.{OnOk};
ghost use Rattle.ua_json.specs.Nesting.{AddsValue, AddsMembers};

use crate::line::Line;
use crate::put::Put;
use ua_value::NoMemory;
use ua_variant::{DiagnosticInfo, DiagnosticParts};

/// The parts that are there (OPC 10000-6, 5.4.2.13).
fn put_parts(line: &mut Line, parts: &DiagnosticParts) -> Result<(), NoMemory>
    ensures { OnOk result (AddsMembers line.old.json.tokens line.new.json.tokens) }
{
    line.part("SymbolicId", &parts.symbolic_id)?;
    line.part("NamespaceUri", &parts.namespace_uri)?;
    line.part("Locale", &parts.locale)?;
    line.part("LocalizedText", &parts.localized_text)?;
    line.part("AdditionalInfo", &parts.additional_info.get())?;
    line.part("InnerStatusCode", &parts.inner_status)
}

/// The parts that are there, and the diagnostics inside.
pub(crate) fn put_diagnostic(line: &mut Line, info: &DiagnosticInfo) -> Result<(), NoMemory>
    ensures { OnOk result (AddsValue line.old.json.tokens line.new.json.tokens) }
{
    line.begin_object()?;
    put_parts(line, info.parts())?;
    if let Some(inner) = info.inner() {
        line.key("InnerDiagnosticInfo")?;
        put_diagnostic(line, inner)?;
    }
    line.end_object()
}

impl Put for DiagnosticInfo {
    fn put(&self, line: &mut Line) -> Result<(), NoMemory> {
        put_diagnostic(line, self)
    }
}
