//! What stands behind the label of a value that holds no other one. Each call appends a blank, the value, and the end of
//! the line.

use crate::hex_text::add_bytes;
use crate::naming::shown;
use std::alloc::Global;
use std::fmt;
use ua_print::{Text, add_node};
use ua_value::{
    ExpandedNodeId, LocalizedText, NoMemory, NodeId, QualifiedName, UaBytes, UaString, XmlElement,
};
use ua_variant::{ExtensionBody, ExtensionObject};

// The frames of these are apart from those of the recursion.

#[inline(never)]
pub(crate) fn add_shown<T: fmt::Display>(text: &mut String, value: &T) -> Result<(), NoMemory> {
    writeln!(text, " {value}")
}

#[inline(never)]
pub(crate) fn add_text(text: &mut String, value: &UaString) -> Result<(), NoMemory> {
    add_shown(text, &shown(value))
}

fn shown_xml(value: &XmlElement) -> Text<'_> {
    Text(value.get().map(str::as_bytes))
}

#[inline(never)]
pub(crate) fn add_xml(text: &mut String, value: &XmlElement) -> Result<(), NoMemory> {
    add_shown(text, &shown_xml(value))
}

#[inline(never)]
pub(crate) fn add_byte_string(
    alloc: Global,
    text: &mut String,
    value: &UaBytes,
) -> Result<(), NoMemory> {
    text.push_str(" ")?;
    add_bytes(alloc, text, value.get())?;
    text.push_str("\n")
}

#[inline(never)]
pub(crate) fn add_node_id(text: &mut String, value: &NodeId) -> Result<(), NoMemory> {
    text.push_str(" ")?;
    add_node(text, value)?;
    text.push_str("\n")
}

/// Where a node is, beside its id: the URI of the namespace and the index of the server, as far as they are there.
fn add_place(text: &mut String, value: &ExpandedNodeId) -> Result<(), NoMemory> {
    if value.namespace_uri.get().is_some() {
        let uri = shown(&value.namespace_uri);
        write!(text, " namespace={uri}")?;
    }
    let server = value.server_index;
    if server != 0 {
        write!(text, " server={server}")?;
    }
    Ok(())
}

#[inline(never)]
pub(crate) fn add_expanded(text: &mut String, value: &ExpandedNodeId) -> Result<(), NoMemory> {
    text.push_str(" ")?;
    add_node(text, &value.node_id)?;
    add_place(text, value)?;
    text.push_str("\n")
}

#[inline(never)]
pub(crate) fn add_name(text: &mut String, value: &QualifiedName) -> Result<(), NoMemory> {
    let namespace = value.namespace_index;
    let name = shown(&value.name);
    writeln!(text, " namespace={namespace} name={name}")
}

#[inline(never)]
pub(crate) fn add_localized(text: &mut String, value: &LocalizedText) -> Result<(), NoMemory> {
    let locale = shown(&value.locale);
    let said = shown(&value.text);
    writeln!(text, " locale={locale} text={said}")
}

fn add_body(alloc: Global, text: &mut String, body: &ExtensionBody) -> Result<(), NoMemory> {
    match body {
        ExtensionBody::None => text.push_str(" none"),
        ExtensionBody::Bytes(bytes) => {
            text.push_str(" bytes ")?;
            add_bytes(alloc, text, bytes.get())
        }
        ExtensionBody::Xml(element) => {
            let xml = shown_xml(element);
            write!(text, " xml {xml}")
        }
    }
}

#[inline(never)]
pub(crate) fn add_extension(
    alloc: Global,
    text: &mut String,
    value: &ExtensionObject,
) -> Result<(), NoMemory> {
    text.push_str(" type=")?;
    add_node(text, &value.type_id)?;
    add_body(alloc, text, &value.body)?;
    text.push_str("\n")
}
