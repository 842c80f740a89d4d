//! Ids of nodes, and values under the id of their encoding.

use crate::line::Line;
use crate::put::Put;
use ua_value::{ExpandedNodeId, NoMemory, NodeId};
use ua_variant::{ExtensionBody, ExtensionObject};

/// The text of the id, as lines for people have it.
impl Put for NodeId {
    fn put(&self, line: &mut Line) -> Result<(), NoMemory> {
        line.node(self)
    }
}

impl Put for ExpandedNodeId {
    fn put(&self, line: &mut Line) -> Result<(), NoMemory> {
        line.begin_object()?;
        line.field("NodeId", &self.node_id)?;
        line.part("NamespaceUri", &self.namespace_uri.get())?;
        if self.server_index != 0 {
            line.field("ServerIndex", &self.server_index)?;
        }
        line.end_object()
    }
}

impl Put for ExtensionObject {
    fn put(&self, line: &mut Line) -> Result<(), NoMemory> {
        line.begin_object()?;
        line.field("TypeId", &self.type_id)?;
        line.field("Body", &self.body)?;
        line.key("Encoding")?;
        line.text(encoding_of(&self.body))?;
        line.end_object()
    }
}

/// Bytes in base64, or the text of an XML element.
impl Put for ExtensionBody {
    fn put(&self, line: &mut Line) -> Result<(), NoMemory> {
        match self {
            ExtensionBody::None => line.null(),
            ExtensionBody::Bytes(bytes) => bytes.put(line),
            ExtensionBody::Xml(element) => element.put(line),
        }
    }
}

/// What a body is encoded as (OPC 10000-6, 5.2.2.15).
fn encoding_of(body: &ExtensionBody) -> &'static str {
    match body {
        ExtensionBody::None => "None",
        ExtensionBody::Bytes(_) => "ByteString",
        ExtensionBody::Xml(_) => "XmlElement",
    }
}
