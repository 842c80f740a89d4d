//! The spellings that are usual, read in one step: ids in their short form, and fields that are null. Other spellings
//! are read by the formats of their types.

ghost use Rattle.std.specs.Prelude.{◌≡◌, ◌≤◌, Some, None, length, IfSome};
ghost use Rattle.ua_value.specs.Node.{node_id, two_byte};
ghost use Rattle.ua_value.specs.Text.{string};
ghost use Rattle.ua_value.specs.Array.{array};
ghost use Rattle.ua_variant.specs.Extension.{extension_object};
ghost use Rattle.ua_variant.specs.Diagnostic.{diagnostic};
ghost use Rattle.ua_service.specs.Headers.{no_diagnostics, bodiless};
ghost use Rattle.ua_service.specs.Message.{id_of};

use ua_value::plumbing::front_u32;

/// The number in namespace 0 that is spelled in four bytes at the front (OPC 10000-6, 5.2.2.9), and what follows it.
#[tactic(auto, unfolding(ua_value::specs::Node::node_id, ua_value::specs::Number::unsigned))]
#[inline(always)]
pub(crate) fn four_byte_id(input: &[u8]) -> Option<(u32, &[u8])>
    ensures front { IfSome result (λ p. node_id.grammar.front input.now ≡ Some (id_of p.0, p.1.now)) }
    ensures shorter { IfSome result (λ p. length p.1.now ≤ length input.now) }
{
    match input {
        [1, 0, low, high, rest @ ..] => Some((u16::from_le_bytes([*low, *high]) as u32, rest)),
        _ => None,
    }
}

/// The number in namespace 0 that is spelled in two bytes at the front (OPC 10000-6, 5.2.2.9), and what follows it.
#[tactic(auto, unfolding(ua_value::specs::Node::node_id, ua_value::specs::Number::unsigned))]
#[inline(always)]
pub(crate) fn two_byte_id(input: &[u8]) -> Option<(u8, &[u8])>
    ensures front { IfSome result (λ p. node_id.grammar.front input.now ≡ Some (two_byte p.0, p.1.now)) }
    ensures shorter { IfSome result (λ p. length p.1.now ≤ length input.now) }
{
    match input {
        [0, id, rest @ ..] => Some((*id, rest)),
        _ => None,
    }
}

/// What follows the null text at the front.
#[tactic(auto, unfolding(ua_value::specs::Text::bytes_of))]
#[inline(always)]
pub(crate) fn null_text(input: &[u8]) -> Option<&[u8]>
    ensures front { IfSome result (λ rest. string.grammar.front input.now ≡ Some (None, rest.now)) }
    ensures shorter { IfSome result (λ rest. length rest.now ≤ length input.now) }
{
    let (length, rest) = front_u32(input)?;
    if length == u32::MAX { Some(rest) } else { None }
}

/// What follows the null array of texts at the front.
#[tactic(auto, unfolding(ua_value::specs::Array::array))]
#[inline(always)]
pub(crate) fn null_texts(input: &[u8]) -> Option<&[u8]>
    ensures front { IfSome result (λ rest. (array string).grammar.front input.now ≡ Some (None, rest.now)) }
    ensures shorter { IfSome result (λ rest. length rest.now ≤ length input.now) }
{
    let (count, rest) = front_u32(input)?;
    if count == u32::MAX { Some(rest) } else { None }
}

/// The id in two bytes of the ExtensionObject at the front that has no body, and what follows it.
#[tactic(auto, unfolding(ua_variant::specs::Extension::extension_object, ua_variant::specs::Extension::extension_body, ua_value::specs::Node::node_id, ua_value::specs::Number::unsigned))]
#[inline(always)]
pub(crate) fn no_body(input: &[u8]) -> Option<(u8, &[u8])>
    ensures front { IfSome result (λ p. extension_object.grammar.front input.now ≡ Some (bodiless p.0, p.1.now)) }
    ensures shorter { IfSome result (λ p. length p.1.now ≤ length input.now) }
{
    match input {
        [0, id, 0, rest @ ..] => Some((*id, rest)),
        _ => None,
    }
}

/// What follows the diagnostics without a part at the front.
#[tactic(auto, using(crate::proofs::WithoutParts::no_part))]
#[inline(always)]
pub(crate) fn no_diagnostic(input: &[u8]) -> Option<&[u8]>
    ensures front { IfSome result (λ rest. diagnostic.grammar.front input.now ≡ Some (no_diagnostics, rest.now)) }
    ensures shorter { IfSome result (λ rest. length rest.now ≤ length input.now) }
{
    match input {
        [0, rest @ ..] => Some(rest),
        _ => None,
    }
}
