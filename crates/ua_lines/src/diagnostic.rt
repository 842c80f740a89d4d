//! The lines of a DiagnosticInfo.

use crate::margin::Margin;
use crate::naming::add_text_line;
use crate::stamps::add_status_line;
use ua_value::{NoMemory, UaString};
use ua_variant::{DiagnosticInfo, DiagnosticParts};

/// Appends the line of an index into the texts of a response, if there is one.
fn add_index_line(
    text: &mut String,
    margin: Margin,
    word: &str,
    index: Option<i32>,
) -> Result<(), NoMemory> {
    match index {
        Some(index) => writeln!(text, "{margin}{word} {index}"),
        None => Ok(()),
    }
}

/// Appends the line of what else is said, if that is there.
fn add_info_line(text: &mut String, margin: Margin, info: &UaString) -> Result<(), NoMemory> {
    match info.get() {
        Some(_) => add_text_line(text, margin, "additional-info", info),
        None => Ok(()),
    }
}

/// Appends a line for each part that is there.
fn add_parts(text: &mut String, margin: Margin, parts: &DiagnosticParts) -> Result<(), NoMemory> {
    add_index_line(text, margin, "symbolic-id", parts.symbolic_id)?;
    add_index_line(text, margin, "namespace-uri", parts.namespace_uri)?;
    add_index_line(text, margin, "locale", parts.locale)?;
    add_index_line(text, margin, "localized-text", parts.localized_text)?;
    add_info_line(text, margin, &parts.additional_info)?;
    add_status_line(text, margin, "inner-status", parts.inner_status)
}

/// No part is there.
fn says_nothing(parts: &DiagnosticParts) -> bool {
    parts.symbolic_id.is_none()
        && parts.namespace_uri.is_none()
        && parts.locale.is_none()
        && parts.localized_text.is_none()
        && parts.additional_info.get().is_none()
        && parts.inner_status.is_none()
}

/// Appends what stands behind the label of a DiagnosticInfo, and its lines without those of the inner one.
fn add_one(text: &mut String, margin: Margin, info: &DiagnosticInfo) -> Result<(), NoMemory> {
    let parts = info.parts();
    if says_nothing(parts) && info.inner().is_none() {
        return text.push_str(" empty\n");
    }
    text.push_str("\n")?;
    add_parts(text, margin, parts)
}

/// Appends what stands behind the label of a DiagnosticInfo, and its lines under that at the margin.
pub(crate) fn add_diagnostic(
    text: &mut String,
    margin: Margin,
    info: &DiagnosticInfo,
) -> Result<(), NoMemory> {
    let mut margin = margin;
    let mut info = info;
    'inner: loop {
        add_one(text, margin, info)?;
        let Some(inner) = info.inner() else {
            return Ok(());
        };
        write!(text, "{margin}inner")?;
        margin = margin.deeper();
        info = inner;
    }
}
