//! XML elements (OPC 10000-6, 5.2.2.8): spelled as a String is.

ghost use Rattle.std.specs.Prelude.{◌≡◌, ◌<◌, ◌↔◌, length, option_map, option_copied, string_bytes, bytes_eq, Some, None, IfOk, IfErr, IsErrOf};
ghost use Rattle.std.specs.Option.{option_eq};
ghost use Rattle.std.specs.Cmp.{partial_equiv_from_equiv};
ghost use Rattle.std.specs.Cmp.Lexicographic.{nat_list_eq_equiv, options_equiv};
ghost use Rattle.ua_value.specs.Text.{xml_element, longest};
ghost use Rattle.ua_value.specs.TextLaws.{lawful_xml_element};

use crate::fault::{NoMemory, ReadFault, ValueFault};
use crate::text::UaString;
use crate::wire::{Sink, Wire};
use std::alloc::Global;
use std::marker::Model;

/// The text of an XML element, of at most 2147483647 bytes, or none. It is kept as it came: that it is XML is not
/// checked.
#[derive(Debug, Drop)]
pub struct XmlElement {
    text: UaString,
}

impl Model for XmlElement {
    ghost use Rattle.std.specs.Prelude.{ℕ, List, Option};

    ghost Value = { Option (List ℕ) };

    ghost view = { λ x. x.text };
}

impl XmlElement {
    /// The element that is none.
    pub fn null() -> XmlElement
        ensures { result ≡ None }
    {
        XmlElement {
            text: UaString::null(),
        }
    }

    /// A copy of the text, which has at most 2147483647 bytes (OPC 10000-6, 5.2.2.8).
    ///
    /// # Errors
    ///
    /// `TooLong` exactly where it has more; else `NoMemory` where the room for the copy is refused.
    pub fn new(alloc: Global, text: &str) -> Result<XmlElement, ValueFault>
        ensures ok { IfOk result (λ v. v ≡ Some text.now) }
        ensures too_long { IsErrOf result ValueFault.TooLong ↔ (longest < length text.now) }
    {
        match UaString::new(alloc, text) {
            Ok(text) => Ok(XmlElement { text }),
            Err(fault) => Err(fault),
        }
    }

    /// The text as it is, which has at most 2147483647 bytes (OPC 10000-6, 5.2.2.8). It takes no memory.
    ///
    /// # Errors
    ///
    /// `TooLong` exactly where it has more; the text is then dropped. No other fault comes.
    pub fn from_string(text: String) -> Result<XmlElement, ValueFault>
        ensures ok { IfOk result (λ v. v ≡ Some (string_bytes text)) }
        ensures too_long { IsErrOf result ValueFault.TooLong ↔ (longest < length (string_bytes text)) }
        ensures fault { IfErr result (λ e. e ≡ ValueFault.TooLong) }
    {
        match UaString::from_string(text) {
            Ok(text) => Ok(XmlElement { text }),
            Err(fault) => Err(fault),
        }
    }

    /// The text, or `None` where there is none. It takes no memory.
    pub fn into_string(self) -> Option<String>
        ensures { option_map string_bytes result ≡ self }
    {
        self.text.into_string()
    }

    /// The text, or `None` where there is none.
    pub fn get(&self) -> Option<&str>
        ensures { option_copied result ≡ self.now }
    {
        self.text.get()
    }
}

/// Equal where both are none, or both have the same bytes.
impl PartialEq for XmlElement {
    ghost eq = { option_eq bytes_eq };

    ghost laws = { partial_equiv_from_equiv (options_equiv nat_list_eq_equiv) };

    fn eq(&self, other: &XmlElement) -> bool {
        self.text == other.text
    }
}

impl Eq for XmlElement {
    ghost laws = { options_equiv nat_list_eq_equiv };
}

impl Wire for XmlElement {
    ghost format = { xml_element };

    ghost most = { 2147483651 };

    ghost Grows = { Unit {0} };

    fn len(&self) -> u64 {
        self.text.len()
    }

    fn emit<S: Sink>(&self, out: &mut S) -> Result<(), NoMemory> {
        self.text.emit(out)
    }

    fn copy(&self) -> Result<XmlElement, NoMemory> {
        Ok(XmlElement {
            text: self.text.copy()?,
        })
    }

    fn read_front(alloc: Global, input: &[u8]) -> Result<(XmlElement, &[u8]), ReadFault> {
        let (text, rest) = UaString::read_front(alloc, input)?;
        Ok((XmlElement { text }, rest))
    }

    fn most_in(bytes: usize) -> usize {
        bytes / 4
    }

    ghost laws = { lawful_xml_element };
}
