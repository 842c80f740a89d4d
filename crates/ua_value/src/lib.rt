//! The plain built-in types of OPC UA and their spellings in OPC UA Binary (OPC 10000-6, 5.2.2 and 5.2.5).
//!
//! A type has a format: which bytes spell which value, the spelling that is written, and which values there are. Its
//! [`Wire`] reads and writes by that format: `read` takes the one spelling that the bytes begin with, or shows that
//! they begin with none, and `write` appends the canonical spelling or changes nothing. Some values have several
//! spellings (three forms of a numeric node id, 255 bytes for true, flagged parts that are null); all of them are read,
//! and the shortest is written.
//!
//! | Type | Clause | Format |
//! |---|---|---|
//! | `bool` | 5.2.2.1 | `Number.boolean` |
//! | `u8` `u16` `u32` `u64` | 5.2.2.2 | `Number.unsigned` at a width |
//! | `i8` `i16` `i32` `i64` | 5.2.2.2 | `Number.signed` at a width |
//! | [`FloatBits`] [`DoubleBits`] | 5.2.2.3 | `Bits.float_bits`, `Bits.double_bits` |
//! | [`UaString`] | 5.2.2.4 | `Text.string` |
//! | [`DateTime`] | 5.2.2.5 | `Date.date_time` |
//! | [`Guid`] | 5.2.2.6 | `Guid.guid` |
//! | [`UaBytes`] | 5.2.2.7 | `Text.byte_string` |
//! | [`XmlElement`] | 5.2.2.8 | `Text.xml_element` |
//! | [`NodeId`] | 5.2.2.9 | `Node.node_id` |
//! | [`ExpandedNodeId`] | 5.2.2.10 | `Expanded.expanded_node_id` |
//! | [`StatusCode`] | 5.2.2.11 | `Status.status_code` |
//! | [`QualifiedName`] | 5.2.2.13 | `Names.qualified_name` |
//! | [`LocalizedText`] | 5.2.2.14 | `Localized.localized_text` |
//! | [`Array`] | 5.2.5 | `Array.array` of the items' format |
//!
//! What is put by one spelling, values and more, is an [`Emit`]: its length is known before the first byte.
//!
//! A structure of several fields is a format made of its fields' by `pair` and `by` (specs/Sequence.antt), its laws in
//! one expression, and an `impl Wire` over the fields and parts of [`plumbing`]: `QualifiedName` shows it.
#![tactic(auto)]

mod array;
mod ascii;
mod bits;
mod boolean;
mod bulk;
mod bytes;
mod date;
mod emit;
mod expanded;
mod fault;
mod fields;
mod guid;
mod integer;
pub mod laws;
mod letting_go;
mod localized;
mod names;
mod node;
mod number;
pub mod plumbing;
mod status;
mod text;
mod texts;
mod wire;
mod xml;

pub use array::Array;
pub use bits::{DoubleBits, FloatBits};
pub use bytes::UaBytes;
pub use date::DateTime;
pub use emit::Emit;
pub use expanded::ExpandedNodeId;
pub use fault::{NoMemory, ReadFault, ValueFault};
pub use guid::Guid;
pub use localized::LocalizedText;
pub use names::QualifiedName;
pub use node::{Identifier, NodeId};
pub use number::peek_u32;
pub use status::StatusCode;
pub use text::{UaString, peek_string};
pub use wire::{Sink, Wire};
pub use xml::XmlElement;
