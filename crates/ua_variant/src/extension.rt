//! Values of types that the reader may not know.

ghost use Rattle.std.specs.Prelude.{◌≡◌, ◌+◌};
ghost use Rattle.ua_variant.specs.Extension.{extension_body, extension_object};
ghost use Rattle.ua_variant.specs.ExtensionLaws.{lawful_extension_body, lawful_extension_object};

use std::alloc::Global;
use ua_value::plumbing::{Fields, Parts};
use ua_value::{Identifier, NoMemory, NodeId, ReadFault, Sink, UaBytes, Wire, XmlElement};

/// The value in an ExtensionObject, kept unread.
#[derive(Debug, PartialEq, Eq, Drop)]
pub enum ExtensionBody {
    None,
    /// The bytes that spell the value.
    Bytes(UaBytes),
    /// An XML element with the value.
    Xml(XmlElement),
}

/// A value of any structured type, under the id of its encoding (OPC 10000-6, 5.2.2.15).
#[derive(Debug, PartialEq, Eq, Drop)]
pub struct ExtensionObject {
    /// The id of the encoding of the body; the null id where there is none.
    pub type_id: NodeId,
    pub body: ExtensionBody,
}

impl ExtensionObject {
    /// The one without a body, under the null id (OPC 10000-6, 5.2.2.15). It takes no memory.
    pub fn null() -> ExtensionObject
        ensures namespace_index { result.type_id.namespace_index ≡ 0 }
        ensures identifier { result.type_id.identifier ≡ Identifier.Numeric 0 }
        ensures body { result.body ≡ ExtensionBody.None }
    {
        ExtensionObject {
            type_id: NodeId::null(),
            body: ExtensionBody::None,
        }
    }
}

#[tactic(auto, unfolding(crate::specs::Extension::extension_body))]
impl Wire for ExtensionBody {
    ghost format = { extension_body };

    ghost most = { 1 + 2147483651 };

    ghost Grows = { Unit {0} };

    fn len(&self) -> u64 {
        match self {
            ExtensionBody::None => 1,
            ExtensionBody::Bytes(bytes) => 1 + bytes.len(),
            ExtensionBody::Xml(element) => 1 + element.len(),
        }
    }

    #[tactic(auto, unfolding(crate::specs::Extension::extension_body, ua_value::specs::Number::unsigned))]
    fn emit<S: Sink>(&self, out: &mut S) -> Result<(), NoMemory> {
        match self {
            ExtensionBody::None => out.put(&[0]),
            ExtensionBody::Bytes(bytes) => (&1u8, bytes).emit_parts(out),
            ExtensionBody::Xml(element) => (&2u8, element).emit_parts(out),
        }
    }

    fn copy(&self) -> Result<ExtensionBody, NoMemory> {
        match self {
            ExtensionBody::None => Ok(ExtensionBody::None),
            ExtensionBody::Bytes(bytes) => Ok(ExtensionBody::Bytes(bytes.copy()?)),
            ExtensionBody::Xml(element) => Ok(ExtensionBody::Xml(element.copy()?)),
        }
    }

    #[tactic(auto, using(crate::proofs::ExtensionForms::no_body), unfolding(crate::specs::Extension::extension_body))]
    fn read_front(alloc: Global, input: &[u8]) -> Result<(ExtensionBody, &[u8]), ReadFault> {
        let [form, rest @ ..] = input else {
            return Err(ReadFault::Refused);
        };
        match *form {
            0 => Ok((ExtensionBody::None, rest)),
            1 => {
                let (bytes, rest) = UaBytes::read_front(alloc, rest)?;
                Ok((ExtensionBody::Bytes(bytes), rest))
            }
            2 => {
                let (element, rest) = XmlElement::read_front(alloc, rest)?;
                Ok((ExtensionBody::Xml(element), rest))
            }
            _ => Err(ReadFault::Refused),
        }
    }

    ghost laws = { lawful_extension_body };
}

#[tactic(auto, unfolding(crate::specs::Extension::extension_object))]
impl Wire for ExtensionObject {
    ghost format = { extension_object };

    ghost most = { 2147483654 + 2147483652 };

    ghost Grows = { Unit {0} };

    fn len(&self) -> u64 {
        self.type_id.len() + self.body.len()
    }

    fn emit<S: Sink>(&self, out: &mut S) -> Result<(), NoMemory> {
        (&self.type_id, &self.body).emit_parts(out)
    }

    fn copy(&self) -> Result<ExtensionObject, NoMemory> {
        Ok(ExtensionObject {
            type_id: self.type_id.copy()?,
            body: self.body.copy()?,
        })
    }

    fn read_front(alloc: Global, input: &[u8]) -> Result<(ExtensionObject, &[u8]), ReadFault> {
        let (type_id, rest) = NodeId::read_front(alloc, input)?;
        let (body, rest) = ExtensionBody::read_front(alloc, rest)?;
        Ok((ExtensionObject { type_id, body }, rest))
    }

    fn most_in(bytes: usize) -> usize {
        bytes / 3
    }

    ghost laws = { lawful_extension_object };
}
