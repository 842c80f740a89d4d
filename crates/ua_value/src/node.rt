//! Node ids (OPC 10000-6, 5.2.2.9): an encoding byte, which says how the rest is spelled. All three forms of a number
//! are read, and the shortest is written.

ghost use Rattle.std.specs.Prelude.{◌≡◌, ◌≤◌, ◌<◌, ◌++◌, length, IfOk, OnOk, OnErr};
ghost use Rattle.ua_value.specs.Format.{AppendsPart, Gives, input_limit};
ghost use Rattle.ua_value.specs.Node.{node_id, node_behind};
ghost use Rattle.ua_value.specs.Expanded.{raised};
ghost use Rattle.ua_value.specs.NodeLaws.{lawful_node};

use crate::bytes::UaBytes;
use crate::fault::{NoMemory, ReadFault};
use crate::fields::{Fields, Parts};
use crate::guid::Guid;
use crate::text::UaString;
use crate::wire::{Sink, Wire};
use std::alloc::Global;

/// What names a node in its namespace.
#[derive(Debug, PartialEq, Eq, Drop)]
pub enum Identifier {
    Numeric(u32),
    String(UaString),
    Guid(Guid),
    /// A ByteString.
    Opaque(UaBytes),
}

/// The id of a node: the index of its namespace's URI, and an identifier there.
#[derive(Debug, PartialEq, Eq, Drop)]
pub struct NodeId {
    pub namespace_index: u16,
    pub identifier: Identifier,
}

#[tactic(auto, unfolding(crate::specs::Node::node_id))]
impl Wire for NodeId {
    ghost format = { node_id };

    ghost most = { 2147483654 };

    ghost Grows = { Unit {0} };

    #[tactic(auto, unfolding(crate::specs::Node::node_id, crate::specs::Number::unsigned))]
    fn len(&self) -> u64 {
        let namespace = self.namespace_index;
        match &self.identifier {
            Identifier::Numeric(id) => {
                let id = *id;
                if namespace < 1 && id < 256 {
                    2
                } else if namespace < 256 && id < 65536 {
                    4
                } else {
                    7
                }
            }
            Identifier::String(text) => 3 + text.len(),
            Identifier::Guid(guid) => 3 + guid.len(),
            Identifier::Opaque(bytes) => 3 + bytes.len(),
        }
    }

    #[tactic(auto, using(crate::specs::ExpandedLaws::raised_zero))]
    fn emit<S: Sink>(&self, out: &mut S) -> Result<(), NoMemory> {
        self.emit_raised(0, out)
    }

    fn copy(&self) -> Result<NodeId, NoMemory> {
        Ok(NodeId {
            namespace_index: self.namespace_index,
            identifier: match &self.identifier {
                Identifier::Numeric(id) => Identifier::Numeric(*id),
                Identifier::String(text) => Identifier::String(text.copy()?),
                Identifier::Guid(guid) => Identifier::Guid(*guid),
                Identifier::Opaque(bytes) => Identifier::Opaque(bytes.copy()?),
            },
        })
    }

    fn read_front(alloc: Global, input: &[u8]) -> Result<(NodeId, &[u8]), ReadFault> {
        match input {
            [form, rest @ ..] => read_behind(alloc, *form, rest),
            [] => Err(ReadFault::Refused),
        }
    }

    fn most_in(bytes: usize) -> usize {
        bytes / 2
    }

    ghost laws = { lawful_node };
}

impl NodeId {
    /// The id that is null: the number 0 in namespace 0 (OPC 10000-3, 8.2.4). It takes no memory.
    pub fn null() -> NodeId
        ensures namespace_index { result.namespace_index ≡ 0 }
        ensures identifier { result.identifier ≡ Identifier.Numeric 0 }
    {
        NodeId::numeric(0, 0)
    }

    /// A number in a namespace. It takes no memory.
    pub fn numeric(namespace_index: u16, id: u32) -> NodeId
        ensures namespace_index { result.namespace_index ≡ namespace_index }
        ensures identifier { result.identifier ≡ Identifier.Numeric id }
    {
        node(namespace_index, Identifier::Numeric(id))
    }

    /// Puts the canonical spelling with its encoding byte raised by the flags, or a beginning of it where memory runs
    /// out.
    #[tactic(auto, unfolding(crate::specs::Node::node_id, crate::specs::Number::unsigned, crate::specs::Expanded::raised))]
    pub(crate) fn emit_raised<S: Sink>(&self, flags: u8, out: &mut S) -> Result<(), NoMemory>
        requires { flags < 251 }
        ensures ok { OnOk result (S.contents out.new ≡ S.contents out.old ++ raised flags (node_id.canon self.now)) }
        ensures err { OnErr result (AppendsPart (S.contents out.old) (S.contents out.new) (raised flags (node_id.canon self.now))) }
    {
        let namespace = self.namespace_index;
        match &self.identifier {
            Identifier::Numeric(id) => {
                let id = *id;
                if namespace < 1 && id < 256 {
                    out.put(&[flags, id as u8])
                } else if namespace < 256 && id < 65536 {
                    (&(1 + flags), (&(namespace as u8), &(id as u16))).emit_parts(out)
                } else {
                    (&(2 + flags), (&namespace, &id)).emit_parts(out)
                }
            }
            Identifier::String(text) => (&(3 + flags), (&namespace, text)).emit_parts(out),
            Identifier::Guid(guid) => (&(4 + flags), (&namespace, guid)).emit_parts(out),
            Identifier::Opaque(bytes) => (&(5 + flags), (&namespace, bytes)).emit_parts(out),
        }
    }
}

/// What follows the encoding byte.
#[tactic(auto, using(crate::specs::NodeLaws::no_form))]
pub(crate) fn read_behind(
    alloc: Global,
    form: u8,
    input: &[u8],
) -> Result<(NodeId, &[u8]), ReadFault>
    requires { length input.now ≤ input_limit }
    ensures gives { Gives (λ x. (x.0, x.1.now)) result ((node_behind form).front input.now) }
    ensures shorter { IfOk result (λ x. length x.1.now ≤ length input.now) }
{
    match form {
        0 => {
            let (id, rest) = u8::read_front(alloc, input)?;
            Ok((node(0, Identifier::Numeric(id as u32)), rest))
        }
        1 => {
            let ((namespace, id), rest) = <(u8, u16)>::read_fields(alloc, input)?;
            Ok((node(namespace as u16, Identifier::Numeric(id as u32)), rest))
        }
        2 => {
            let ((namespace, id), rest) = <(u16, u32)>::read_fields(alloc, input)?;
            Ok((node(namespace, Identifier::Numeric(id)), rest))
        }
        3 => {
            let ((namespace, id), rest) = <(u16, UaString)>::read_fields(alloc, input)?;
            Ok((node(namespace, Identifier::String(id)), rest))
        }
        4 => {
            let ((namespace, id), rest) = <(u16, Guid)>::read_fields(alloc, input)?;
            Ok((node(namespace, Identifier::Guid(id)), rest))
        }
        5 => {
            let ((namespace, id), rest) = <(u16, UaBytes)>::read_fields(alloc, input)?;
            Ok((node(namespace, Identifier::Opaque(id)), rest))
        }
        _ => Err(ReadFault::Refused),
    }
}

fn node(namespace_index: u16, identifier: Identifier) -> NodeId
    ensures { (result.namespace_index ≡ namespace_index) × (result.identifier ≡ identifier) }
{
    NodeId {
        namespace_index,
        identifier,
    }
}
