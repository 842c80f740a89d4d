//! Letting go of what values own.

ghost use Rattle.std.specs.Prelude.{◌≤◌};
ghost use denote.Param.Weighed.{most};
ghost use Rattle.ua_variant.specs.declared.variant.DataValue.TheDeep.{deep-Element};

use crate::extension::ExtensionObject;
use crate::variant::Element;
use ua_value::{NodeId, UaBytes, UaString, XmlElement};

/// Lets go of what plain elements of one kind own. They are null, or what they were, and own nothing.
#[inline(never)]
pub(crate) fn empty_each(list: &mut Vec<Element>)
    ensures { most deep-Element list.new.items ≤ most deep-Element list.old.items }
{
    let owns_nothing = match list.first() {
        None => true,
        Some(first) => first.kind().owns_nothing(),
    };
    if owns_nothing {
        return;
    }
    for item in list.iter_mut() {
        empty(item);
    }
}

/// Lets go of what a plain value owns.
#[inline(always)]
fn empty(item: &mut Element)
    ensures { deep-Element item.new ≤ deep-Element item.old }
{
    match item {
        Element::String(value) => *value = UaString::null(),
        Element::ByteString(value) => *value = UaBytes::null(),
        Element::XmlElement(value) => *value = XmlElement::null(),
        Element::NodeId(value) => *value = NodeId::null(),
        Element::ExpandedNodeId(value) => {
            value.node_id = NodeId::null();
            value.namespace_uri = UaString::null();
        }
        Element::QualifiedName(value) => value.name = UaString::null(),
        Element::LocalizedText(value) => {
            value.locale = UaString::null();
            value.text = UaString::null();
        }
        Element::ExtensionObject(value) => *value = ExtensionObject::null(),
        _ => {}
    }
}

/// Lets go of a value out of line: else it would be taken apart by its fields, on the way that keeps it as well.
#[inline(never)]
pub(crate) fn drop_aside<T: Drop>(_value: T) {}
