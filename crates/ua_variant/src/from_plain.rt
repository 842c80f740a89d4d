//! Elements of values whose type tells the kind.

ghost use Rattle.std.specs.Prelude.{◌≡◌};
ghost use Rattle.ua_variant.specs.declared.variant.Element.TheVariants as elements;

use crate::diagnostic::DiagnosticInfo;
use crate::extension::ExtensionObject;
use crate::variant::Element;
use ua_value::{
    DateTime, DoubleBits, ExpandedNodeId, FloatBits, Guid, LocalizedText, NodeId, QualifiedName,
    StatusCode, UaBytes, UaString, XmlElement,
};

impl From<bool> for Element {
    ghost from_gives = { λ v e. e ≡ elements.Boolean v };

    fn from(value: bool) -> Element {
        Element::Boolean(value)
    }
}

impl From<i8> for Element {
    ghost from_gives = { λ v e. e ≡ elements.SByte v };

    fn from(value: i8) -> Element {
        Element::SByte(value)
    }
}

impl From<u8> for Element {
    ghost from_gives = { λ v e. e ≡ elements.Byte v };

    fn from(value: u8) -> Element {
        Element::Byte(value)
    }
}

impl From<i16> for Element {
    ghost from_gives = { λ v e. e ≡ elements.Int16 v };

    fn from(value: i16) -> Element {
        Element::Int16(value)
    }
}

impl From<u16> for Element {
    ghost from_gives = { λ v e. e ≡ elements.UInt16 v };

    fn from(value: u16) -> Element {
        Element::UInt16(value)
    }
}

impl From<i32> for Element {
    ghost from_gives = { λ v e. e ≡ elements.Int32 v };

    fn from(value: i32) -> Element {
        Element::Int32(value)
    }
}

impl From<u32> for Element {
    ghost from_gives = { λ v e. e ≡ elements.UInt32 v };

    fn from(value: u32) -> Element {
        Element::UInt32(value)
    }
}

impl From<i64> for Element {
    ghost from_gives = { λ v e. e ≡ elements.Int64 v };

    fn from(value: i64) -> Element {
        Element::Int64(value)
    }
}

impl From<u64> for Element {
    ghost from_gives = { λ v e. e ≡ elements.UInt64 v };

    fn from(value: u64) -> Element {
        Element::UInt64(value)
    }
}

impl From<FloatBits> for Element {
    ghost from_gives = { λ v e. e ≡ elements.Float v };

    fn from(value: FloatBits) -> Element {
        Element::Float(value)
    }
}

impl From<DoubleBits> for Element {
    ghost from_gives = { λ v e. e ≡ elements.Double v };

    fn from(value: DoubleBits) -> Element {
        Element::Double(value)
    }
}

impl From<UaString> for Element {
    ghost from_gives = { λ v e. e ≡ elements.String v };

    fn from(value: UaString) -> Element {
        Element::String(value)
    }
}

impl From<DateTime> for Element {
    ghost from_gives = { λ v e. e ≡ elements.DateTime v };

    fn from(value: DateTime) -> Element {
        Element::DateTime(value)
    }
}

impl From<Guid> for Element {
    ghost from_gives = { λ v e. e ≡ elements.Guid v };

    fn from(value: Guid) -> Element {
        Element::Guid(value)
    }
}

impl From<UaBytes> for Element {
    ghost from_gives = { λ v e. e ≡ elements.ByteString v };

    fn from(value: UaBytes) -> Element {
        Element::ByteString(value)
    }
}

impl From<XmlElement> for Element {
    ghost from_gives = { λ v e. e ≡ elements.XmlElement v };

    fn from(value: XmlElement) -> Element {
        Element::XmlElement(value)
    }
}

impl From<NodeId> for Element {
    ghost from_gives = { λ v e. e ≡ elements.NodeId v };

    fn from(value: NodeId) -> Element {
        Element::NodeId(value)
    }
}

impl From<ExpandedNodeId> for Element {
    ghost from_gives = { λ v e. e ≡ elements.ExpandedNodeId v };

    fn from(value: ExpandedNodeId) -> Element {
        Element::ExpandedNodeId(value)
    }
}

impl From<StatusCode> for Element {
    ghost from_gives = { λ v e. e ≡ elements.StatusCode v };

    fn from(value: StatusCode) -> Element {
        Element::StatusCode(value)
    }
}

impl From<QualifiedName> for Element {
    ghost from_gives = { λ v e. e ≡ elements.QualifiedName v };

    fn from(value: QualifiedName) -> Element {
        Element::QualifiedName(value)
    }
}

impl From<LocalizedText> for Element {
    ghost from_gives = { λ v e. e ≡ elements.LocalizedText v };

    fn from(value: LocalizedText) -> Element {
        Element::LocalizedText(value)
    }
}

impl From<ExtensionObject> for Element {
    ghost from_gives = { λ v e. e ≡ elements.ExtensionObject v };

    fn from(value: ExtensionObject) -> Element {
        Element::ExtensionObject(value)
    }
}

impl From<DiagnosticInfo> for Element {
    ghost from_gives = { λ v e. e ≡ elements.DiagnosticInfo v };

    fn from(value: DiagnosticInfo) -> Element {
        Element::DiagnosticInfo(value)
    }
}
