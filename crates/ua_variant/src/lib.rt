//! The built-in types of OPC UA that hold others, and their spellings as bytes.
#![tactic(auto)]

mod contents;
mod copying;
mod depth;
mod diagnostic;
mod diagnostic_parts;
mod element;
mod emptying;
mod extension;
mod fault;
mod flagged;
mod from_plain;
mod leaf;
mod leaves;
mod making;
mod parts;
mod picoseconds;
mod reading;
mod shape;
mod short;
mod stamps;
mod variant;
mod wire;
mod writing;

pub use diagnostic::DiagnosticInfo;
pub use diagnostic_parts::DiagnosticParts;
pub use extension::{ExtensionBody, ExtensionObject};
pub use fault::VariantFault;
pub use ua_kind::{DEEPEST, Kind};
pub use variant::{DataValue, Element, Variant};
