//! What the lists of a request ask for (OPC 10000-4, 5.5.2 and 5.5.4).

ghost use Rattle.std.specs.Prelude.{◌≡◌, IfSome};
ghost use Rattle.ua_choice.specs.Choosing.{same_text, is_among, is_asked};

use ua_value::{Array, UaString};

/// Texts are compared as values; none equals none alone.
pub(crate) fn is_same(a: &UaString, b: &UaString) -> bool
    ensures { result ≡ same_text a.now b.now }
{
    match (a.get(), b.get()) {
        (None, None) => true,
        (Some(a), Some(b)) => a == b,
        _ => false,
    }
}

pub(crate) fn is_one_of(text: &UaString, texts: &[UaString]) -> bool
    ensures { result ≡ is_among text.now texts.now }
{
    for other in texts {
        if is_same(text, other) {
            return true;
        }
    }
    false
}

/// Whether a filter asks for what has this text: an absent or empty filter asks for all.
pub fn asks_for(filter: &Array<UaString>, text: &UaString) -> bool
    ensures { result ≡ is_asked filter.now text.now }
{
    match filter.get() {
        None => true,
        Some([]) => true,
        Some(texts) => is_one_of(text, texts),
    }
}
