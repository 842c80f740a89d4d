//! Variants, what stands in them, and data values.

use crate::diagnostic::DiagnosticInfo;
use crate::emptying::empty_each;
use crate::extension::ExtensionObject;
use crate::stamps::Stamps;
use std::marker::Model;
use ua_kind::Kind;
use ua_value::plumbing::let_go;
use ua_value::{
    Array, DateTime, DoubleBits, ExpandedNodeId, FloatBits, Guid, LocalizedText, NodeId,
    QualifiedName, StatusCode, UaBytes, UaString, XmlElement,
};

/// A value of one of the built-in types (OPC 10000-6, 5.1.2): what stands in a Variant.
#[cycle(variant)]
#[derive(Debug, Drop)]
pub enum Element {
    /// True or false.
    Boolean(bool),
    /// A signed number of 8 bits.
    SByte(i8),
    /// A number of 8 bits.
    Byte(u8),
    /// A signed number of 16 bits.
    Int16(i16),
    /// A number of 16 bits.
    UInt16(u16),
    /// A signed number of 32 bits.
    Int32(i32),
    /// A number of 32 bits.
    UInt32(u32),
    /// A signed number of 64 bits.
    Int64(i64),
    /// A number of 64 bits.
    UInt64(u64),
    /// The bits of a number of single precision.
    Float(FloatBits),
    /// The bits of a number of double precision.
    Double(DoubleBits),
    /// A text, or null.
    String(UaString),
    /// A moment.
    DateTime(DateTime),
    /// An identifier of 16 bytes.
    Guid(Guid),
    /// Bytes, or null.
    ByteString(UaBytes),
    /// A piece of XML, or null.
    XmlElement(XmlElement),
    /// The id of a node.
    NodeId(NodeId),
    /// The id of a node, which may be on another server.
    ExpandedNodeId(ExpandedNodeId),
    /// What became of a call.
    StatusCode(StatusCode),
    /// A name in a namespace.
    QualifiedName(QualifiedName),
    /// A text in a language.
    LocalizedText(LocalizedText),
    /// A value of a structured type, kept unread.
    ExtensionObject(ExtensionObject),
    /// A value with its status and its moments.
    DataValue(Box<DataValue>),
    /// A value of any kind, or an array.
    Variant(Box<Variant>),
    /// What went wrong, in more detail.
    DiagnosticInfo(DiagnosticInfo),
}

#[cycle(variant)]
#[derive(Debug, Drop)]
pub(crate) enum Body {
    Null,
    One(Element),
    /// Elements of the kind, or null, and their dimensions; null dimensions are none.
    Array(Kind, Elements, Array<i32>),
}

/// The elements of an array, all of one kind, or null.
#[cycle(variant)]
#[derive(Debug)]
pub(crate) struct Elements {
    pub(crate) list: Option<Vec<Element>>,
}

impl Drop for Elements {
    /// Plain elements are let go of in a loop of their own, and not by a call for each.
    #[cycle(variant)]
    fn drop(self) {
        let Elements { list } = self;
        let Some(mut list) = list else {
            return;
        };
        if are_plain(&list) {
            empty_each(&mut list);
            forget_each(list);
        } else {
            let_go(list);
        }
    }
}

/// The first of elements of one kind is plain, so all are.
fn are_plain(list: &[Element]) -> bool {
    match list.first() {
        None => true,
        Some(first) => first.kind().is_plain(),
    }
}

/// Lets go of a list, and of nothing that is in it.
fn forget_each<T: Drop>(list: Vec<T>) {
    for item in list {
        std::mem::forget(item);
    }
}

/// Nothing, one value, or an array of values of one kind (OPC 10000-6, 5.2.2.16).
///
/// At most 100 Variants, DataValues and DiagnosticInfos are nested in one another.
#[cycle(variant)]
#[derive(Debug, Drop)]
pub struct Variant {
    pub(crate) levels: u8,
    pub(crate) body: Body,
}

/// A value with its status and its moments, each of which may be absent (OPC 10000-6, 5.2.2.17).
///
/// At most 100 Variants, DataValues and DiagnosticInfos are nested in one another.
#[cycle(variant)]
#[derive(Debug, Drop)]
pub struct DataValue {
    pub(crate) levels: u8,
    pub(crate) stamps: Stamps,
    pub(crate) value: Option<Variant>,
}

impl Model for Variant {
    ghost use Rattle.ua_variant.specs.Values.{Variant, depth};
    ghost use Rattle.ua_variant.specs.Codes.{variant_coded};

    ghost Value = { Variant };

    ghost coded = { variant_coded };

    ghost use Rattle.ua_variant.specs.View.{body_of, IsKept};

    ghost view = { λ a. body_of a.body };

    ghost invariant = { IsKept };

    ghost size = { depth };

    ghost use Rattle.std.proofs.Common.{arith};
    ghost use Rattle.ua_variant.specs.Falls.{falls_body};

    ghost size_decreases = { λ a h. Prim.grind (arith, falls_body a.body) };
}

impl Model for DataValue {
    ghost use Rattle.ua_variant.specs.Values.{DataValue, data_depth};
    ghost use Rattle.ua_variant.specs.Codes.{data_coded};

    ghost Value = { DataValue };

    ghost coded = { data_coded };

    ghost use Rattle.ua_variant.specs.View.{data_of, IsDataKept};

    ghost view = { data_of };

    ghost invariant = { IsDataKept };

    ghost size = { data_depth };

    ghost use Rattle.std.proofs.Common.{arith};

    ghost size_decreases = { λ a h. Prim.grind arith };
}
