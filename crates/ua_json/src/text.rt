//! Texts, bytes, names and arrays.

ghost use Rattle.std.specs.Prelude.{OnOk};
ghost use Rattle.ua_json.specs.Nesting.{AddsValue};

use crate::line::Line;
use crate::put::Put;
use ua_value::{
    Array, Guid, LocalizedText, NoMemory, QualifiedName, UaBytes, UaString, Wire, XmlElement,
};

impl Put for &str {
    fn put(&self, line: &mut Line) -> Result<(), NoMemory> {
        line.text(self)
    }
}

/// `null` where there is nothing.
impl<T: Put> Put for Option<T> {
    fn put(&self, line: &mut Line) -> Result<(), NoMemory> {
        match self {
            None => line.null(),
            Some(value) => value.put(line),
        }
    }
}

impl Put for UaString {
    fn put(&self, line: &mut Line) -> Result<(), NoMemory> {
        self.get().put(line)
    }
}

impl Put for XmlElement {
    fn put(&self, line: &mut Line) -> Result<(), NoMemory> {
        self.get().put(line)
    }
}

/// In base64 (OPC 10000-6, 5.4.2.8).
impl Put for UaBytes {
    fn put(&self, line: &mut Line) -> Result<(), NoMemory> {
        match self.get() {
            None => line.null(),
            Some(bytes) => line.base64(bytes),
        }
    }
}

/// The text with hyphens (OPC 10000-6, 5.4.2.7).
impl Put for Guid {
    fn put(&self, line: &mut Line) -> Result<(), NoMemory> {
        line.shown(self)
    }
}

impl Put for QualifiedName {
    fn put(&self, line: &mut Line) -> Result<(), NoMemory> {
        line.begin_object()?;
        line.field("NamespaceIndex", &self.namespace_index)?;
        line.field("Name", &self.name)?;
        line.end_object()
    }
}

impl Put for LocalizedText {
    fn put(&self, line: &mut Line) -> Result<(), NoMemory> {
        line.begin_object()?;
        line.field("Locale", &self.locale)?;
        line.field("Text", &self.text)?;
        line.end_object()
    }
}

impl<T: Wire + Put> Put for Array<T> {
    fn put(&self, line: &mut Line) -> Result<(), NoMemory> {
        match self.get() {
            None => line.null(),
            Some(items) => put_items(line, items),
        }
    }
}

/// An array of JSON.
pub(crate) fn put_items<T: Put>(line: &mut Line, items: &[T]) -> Result<(), NoMemory>
    ensures { OnOk result (AddsValue line.old.json.tokens line.new.json.tokens) }
{
    line.begin_array()?;
    for item in items {
        item.put(line)?;
    }
    line.end_array()
}
