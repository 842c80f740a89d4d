//! Types of plain values, as what stands in a Variant.

ghost use Rattle.std.specs.Prelude.{◌≡◌, refl};
ghost use Rattle.ua_variant.specs.Kinds as kinds;
ghost use Rattle.ua_variant.specs.Values as values;
ghost use Rattle.ua_variant.specs.Values.{IsFlat};
ghost use Rattle.ua_variant.specs.Reading.{leaf_of};
ghost use Rattle.ua_variant.specs.View.{element};

use crate::extension::ExtensionObject;
use crate::variant::Element;
use ua_value::{
    DateTime, DoubleBits, ExpandedNodeId, FloatBits, Guid, LocalizedText, NodeId, QualifiedName,
    StatusCode, UaBytes, UaString, Wire, XmlElement,
};

/// The type of the values of one plain kind. A list of such values is read by a loop of the type.
pub(crate) trait Leaf: Wire {
    // the value as what stands in a Variant
    ghost wrap: { Self → values.Element };

    // it holds no other value
    ghost flat: { (v : Self) → IsFlat (wrap v) };

    /// The value as an element.
    fn into_element(self) -> Element
        ensures { element result ≡ wrap self };
}

impl Leaf for bool {
    ghost wrap = { leaf_of kinds.boolean };

    ghost flat = { λ v. (refl, refl) };

    #[inline(always)]
    fn into_element(self) -> Element {
        Element::Boolean(self)
    }
}

impl Leaf for i8 {
    ghost wrap = { leaf_of kinds.sbyte };

    ghost flat = { λ v. (refl, refl) };

    #[inline(always)]
    fn into_element(self) -> Element {
        Element::SByte(self)
    }
}

impl Leaf for u8 {
    ghost wrap = { leaf_of kinds.byte };

    ghost flat = { λ v. (refl, refl) };

    #[inline(always)]
    fn into_element(self) -> Element {
        Element::Byte(self)
    }
}

impl Leaf for i16 {
    ghost wrap = { leaf_of kinds.int16 };

    ghost flat = { λ v. (refl, refl) };

    #[inline(always)]
    fn into_element(self) -> Element {
        Element::Int16(self)
    }
}

impl Leaf for u16 {
    ghost wrap = { leaf_of kinds.uint16 };

    ghost flat = { λ v. (refl, refl) };

    #[inline(always)]
    fn into_element(self) -> Element {
        Element::UInt16(self)
    }
}

impl Leaf for i32 {
    ghost wrap = { leaf_of kinds.int32 };

    ghost flat = { λ v. (refl, refl) };

    #[inline(always)]
    fn into_element(self) -> Element {
        Element::Int32(self)
    }
}

impl Leaf for u32 {
    ghost wrap = { leaf_of kinds.uint32 };

    ghost flat = { λ v. (refl, refl) };

    #[inline(always)]
    fn into_element(self) -> Element {
        Element::UInt32(self)
    }
}

impl Leaf for i64 {
    ghost wrap = { leaf_of kinds.int64 };

    ghost flat = { λ v. (refl, refl) };

    #[inline(always)]
    fn into_element(self) -> Element {
        Element::Int64(self)
    }
}

impl Leaf for u64 {
    ghost wrap = { leaf_of kinds.uint64 };

    ghost flat = { λ v. (refl, refl) };

    #[inline(always)]
    fn into_element(self) -> Element {
        Element::UInt64(self)
    }
}

impl Leaf for FloatBits {
    ghost wrap = { leaf_of kinds.float };

    ghost flat = { λ v. (refl, refl) };

    #[inline(always)]
    fn into_element(self) -> Element {
        Element::Float(self)
    }
}

impl Leaf for DoubleBits {
    ghost wrap = { leaf_of kinds.double };

    ghost flat = { λ v. (refl, refl) };

    #[inline(always)]
    fn into_element(self) -> Element {
        Element::Double(self)
    }
}

impl Leaf for UaString {
    ghost wrap = { leaf_of kinds.string };

    ghost flat = { λ v. (refl, refl) };

    #[inline(always)]
    fn into_element(self) -> Element {
        Element::String(self)
    }
}

impl Leaf for DateTime {
    ghost wrap = { leaf_of kinds.date_time };

    ghost flat = { λ v. (refl, refl) };

    #[inline(always)]
    fn into_element(self) -> Element {
        Element::DateTime(self)
    }
}

impl Leaf for Guid {
    ghost wrap = { leaf_of kinds.guid };

    ghost flat = { λ v. (refl, refl) };

    #[inline(always)]
    fn into_element(self) -> Element {
        Element::Guid(self)
    }
}

impl Leaf for UaBytes {
    ghost wrap = { leaf_of kinds.byte_string };

    ghost flat = { λ v. (refl, refl) };

    #[inline(always)]
    fn into_element(self) -> Element {
        Element::ByteString(self)
    }
}

impl Leaf for XmlElement {
    ghost wrap = { leaf_of kinds.xml_element };

    ghost flat = { λ v. (refl, refl) };

    #[inline(always)]
    fn into_element(self) -> Element {
        Element::XmlElement(self)
    }
}

impl Leaf for NodeId {
    ghost wrap = { leaf_of kinds.node_id };

    ghost flat = { λ v. (refl, refl) };

    #[inline(always)]
    fn into_element(self) -> Element {
        Element::NodeId(self)
    }
}

impl Leaf for ExpandedNodeId {
    ghost wrap = { leaf_of kinds.expanded_node_id };

    ghost flat = { λ v. (refl, refl) };

    #[inline(always)]
    fn into_element(self) -> Element {
        Element::ExpandedNodeId(self)
    }
}

impl Leaf for StatusCode {
    ghost wrap = { leaf_of kinds.status_code };

    ghost flat = { λ v. (refl, refl) };

    #[inline(always)]
    fn into_element(self) -> Element {
        Element::StatusCode(self)
    }
}

impl Leaf for QualifiedName {
    ghost wrap = { leaf_of kinds.qualified_name };

    ghost flat = { λ v. (refl, refl) };

    #[inline(always)]
    fn into_element(self) -> Element {
        Element::QualifiedName(self)
    }
}

impl Leaf for LocalizedText {
    ghost wrap = { leaf_of kinds.localized_text };

    ghost flat = { λ v. (refl, refl) };

    #[inline(always)]
    fn into_element(self) -> Element {
        Element::LocalizedText(self)
    }
}

impl Leaf for ExtensionObject {
    ghost wrap = { leaf_of kinds.extension_object };

    ghost flat = { λ v. (refl, refl) };

    #[inline(always)]
    fn into_element(self) -> Element {
        Element::ExtensionObject(self)
    }
}
