//! The names of the built-in types, as words of the command.

ghost use Rattle.std.specs.Prelude.{◌≡◌, MatchOption};
ghost use Rattle.ua_kind.specs.declared.kind.Kind.{Kind};
ghost use Rattle.ua_kind.specs.KindNames.{kind_name};
ghost use Rattle.ua_words.specs.TypeNames.{AreTypeNames};

use ua_kind::Kind;

/// The names of the types, in the order of their numbers.
pub fn type_names<'a>() -> &'a [&'a str]
    ensures { AreTypeNames result }
{
    &[
        "Boolean",
        "SByte",
        "Byte",
        "Int16",
        "UInt16",
        "Int32",
        "UInt32",
        "Int64",
        "UInt64",
        "Float",
        "Double",
        "String",
        "DateTime",
        "Guid",
        "ByteString",
        "XmlElement",
        "NodeId",
        "ExpandedNodeId",
        "StatusCode",
        "QualifiedName",
        "LocalizedText",
        "ExtensionObject",
        "DataValue",
        "Variant",
        "DiagnosticInfo",
    ]
}

/// The type that has this name, letter for letter, or none.
pub fn type_named(text: &str) -> Option<Kind>
    ensures { MatchOption result ((kind : Kind) → kind_name kind ≡ text.now → ⊥) (λ kind. kind_name kind ≡ text.now) }
{
    match text {
        "Boolean" => Some(Kind::Boolean),
        "SByte" => Some(Kind::SByte),
        "Byte" => Some(Kind::Byte),
        "Int16" => Some(Kind::Int16),
        "UInt16" => Some(Kind::UInt16),
        "Int32" => Some(Kind::Int32),
        "UInt32" => Some(Kind::UInt32),
        "Int64" => Some(Kind::Int64),
        "UInt64" => Some(Kind::UInt64),
        "Float" => Some(Kind::Float),
        "Double" => Some(Kind::Double),
        "String" => Some(Kind::String),
        "DateTime" => Some(Kind::DateTime),
        "Guid" => Some(Kind::Guid),
        "ByteString" => Some(Kind::ByteString),
        "XmlElement" => Some(Kind::XmlElement),
        "NodeId" => Some(Kind::NodeId),
        "ExpandedNodeId" => Some(Kind::ExpandedNodeId),
        "StatusCode" => Some(Kind::StatusCode),
        "QualifiedName" => Some(Kind::QualifiedName),
        "LocalizedText" => Some(Kind::LocalizedText),
        "ExtensionObject" => Some(Kind::ExtensionObject),
        "DataValue" => Some(Kind::DataValue),
        "Variant" => Some(Kind::Variant),
        "DiagnosticInfo" => Some(Kind::DiagnosticInfo),
        _ => None,
    }
}
