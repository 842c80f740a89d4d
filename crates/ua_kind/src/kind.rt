//! The kinds of built-in values.

ghost use Rattle.std.specs.Prelude.{◌≡◌, ◌≤◌, ◌↔◌, IsTrue, option_map};
ghost use Rattle.ua_kind.specs.Kinds.{kind_number, kind_named, owns_nothing};
ghost use Rattle.ua_kind.specs.KindNames.{kind_name};
ghost use Rattle.ua_kind.specs.KindView.{kind_of};
ghost use Rattle.ua_kind.specs.Nesting.{is_variant};

/// The built-in types (OPC 10000-6, 5.1.2). `kind as u8` is the number of each.
#[derive(Clone, Copy, Debug, PartialEq, Eq)]
pub enum Kind {
    /// True or false.
    Boolean = 1,
    /// A signed number of 8 bits.
    SByte = 2,
    /// A number of 8 bits.
    Byte = 3,
    /// A signed number of 16 bits.
    Int16 = 4,
    /// A number of 16 bits.
    UInt16 = 5,
    /// A signed number of 32 bits.
    Int32 = 6,
    /// A number of 32 bits.
    UInt32 = 7,
    /// A signed number of 64 bits.
    Int64 = 8,
    /// A number of 64 bits.
    UInt64 = 9,
    /// The bits of a number of single precision.
    Float = 10,
    /// The bits of a number of double precision.
    Double = 11,
    /// A text, or null.
    String = 12,
    /// A moment.
    DateTime = 13,
    /// An identifier of 16 bytes.
    Guid = 14,
    /// Bytes, or null.
    ByteString = 15,
    /// A piece of XML, or null.
    XmlElement = 16,
    /// The id of a node.
    NodeId = 17,
    /// The id of a node, which may be on another server.
    ExpandedNodeId = 18,
    /// What became of a call.
    StatusCode = 19,
    /// A name in a namespace.
    QualifiedName = 20,
    /// A text in a language.
    LocalizedText = 21,
    /// A value of a structured type, kept unread.
    ExtensionObject = 22,
    /// A value with its status and its moments.
    DataValue = 23,
    /// A value of any kind, or an array.
    Variant = 24,
    /// What went wrong, in more detail.
    DiagnosticInfo = 25,
}

impl Kind {
    /// The name of the type (OPC 10000-6, 5.1.2), as `LocalizedText`.
    pub fn name(self) -> &'static str
        ensures { result.now ≡ kind_name self }
    {
        match self {
            Kind::Boolean => "Boolean",
            Kind::SByte => "SByte",
            Kind::Byte => "Byte",
            Kind::Int16 => "Int16",
            Kind::UInt16 => "UInt16",
            Kind::Int32 => "Int32",
            Kind::UInt32 => "UInt32",
            Kind::Int64 => "Int64",
            Kind::UInt64 => "UInt64",
            Kind::Float => "Float",
            Kind::Double => "Double",
            Kind::String => "String",
            Kind::DateTime => "DateTime",
            Kind::Guid => "Guid",
            Kind::ByteString => "ByteString",
            Kind::XmlElement => "XmlElement",
            Kind::NodeId => "NodeId",
            Kind::ExpandedNodeId => "ExpandedNodeId",
            Kind::StatusCode => "StatusCode",
            Kind::QualifiedName => "QualifiedName",
            Kind::LocalizedText => "LocalizedText",
            Kind::ExtensionObject => "ExtensionObject",
            Kind::DataValue => "DataValue",
            Kind::Variant => "Variant",
            Kind::DiagnosticInfo => "DiagnosticInfo",
        }
    }

    /// The kind's number, 1 to 25, as it stands in the first byte of a Variant (OPC 10000-6, 5.2.2.16).
    pub fn number(self) -> u8
        ensures number { result ≡ kind_number (kind_of self) }
        ensures most { result ≤ 25 }
    {
        self as u8
    }

    /// The values of the kind hold no Variant, DataValue or DiagnosticInfo.
    pub fn is_plain(self) -> bool
        ensures { IsTrue result ↔ (kind_number (kind_of self) ≤ 22) }
    {
        !matches!(self, Kind::DataValue | Kind::Variant | Kind::DiagnosticInfo)
    }

    /// The values of the kind own no memory, so nothing is lost where one is not dropped.
    pub fn owns_nothing(self) -> bool
        ensures { result ≡ owns_nothing (kind_of self) }
    {
        match self {
            Kind::DateTime | Kind::Guid | Kind::StatusCode => true,
            _ => self.number() < Kind::String.number(),
        }
    }

    /// A Variant holds no single value of the kind, but arrays of it: only of Variants (OPC 10000-6, 5.2.2.16).
    pub fn is_variant(self) -> bool
        ensures { result ≡ is_variant (kind_of self) }
    {
        matches!(self, Kind::Variant)
    }

    /// The kind that a Variant's first byte names in its bits 0 to 5 (OPC 10000-6, 5.2.2.16): 26 to
    /// 31 stand for ByteString, and 0 and what is greater for none.
    #[tactic(auto, unfolding(crate::specs::Kinds::kind_named))]
    pub fn named(number: u8) -> Option<Kind>
        ensures { option_map kind_of result ≡ kind_named number }
    {
        match number {
            1 => Some(Kind::Boolean),
            2 => Some(Kind::SByte),
            3 => Some(Kind::Byte),
            4 => Some(Kind::Int16),
            5 => Some(Kind::UInt16),
            6 => Some(Kind::Int32),
            7 => Some(Kind::UInt32),
            8 => Some(Kind::Int64),
            9 => Some(Kind::UInt64),
            10 => Some(Kind::Float),
            11 => Some(Kind::Double),
            12 => Some(Kind::String),
            13 => Some(Kind::DateTime),
            14 => Some(Kind::Guid),
            15 => Some(Kind::ByteString),
            16 => Some(Kind::XmlElement),
            17 => Some(Kind::NodeId),
            18 => Some(Kind::ExpandedNodeId),
            19 => Some(Kind::StatusCode),
            20 => Some(Kind::QualifiedName),
            21 => Some(Kind::LocalizedText),
            22 => Some(Kind::ExtensionObject),
            23 => Some(Kind::DataValue),
            24 => Some(Kind::Variant),
            25 => Some(Kind::DiagnosticInfo),
            26..=31 => Some(Kind::ByteString),
            _ => None,
        }
    }
}
