//! What data values hold.

ghost use Rattle.std.specs.Prelude.{◌≡◌, ◌≤◌, option_copied};
ghost use Rattle.ua_variant.specs.Values.{data_depth, deepest};
ghost use Rattle.ua_variant.specs.Making.{value_in, stamps_in};

use crate::variant::{DataValue, Variant};
use ua_value::{DateTime, StatusCode};

impl DataValue {
    /// The value.
    pub fn value(&self) -> Option<&Variant>
        ensures { option_copied result ≡ value_in self.now }
    {
        self.value.as_ref()
    }

    /// The value, which takes no memory. What else there is is dropped.
    pub fn into_value(self) -> Option<Variant>
        ensures { result ≡ value_in self }
    {
        let DataValue { value, .. } = self;
        value
    }

    /// The status of the value.
    pub fn status(&self) -> Option<StatusCode>
        ensures { result ≡ (stamps_in self.now).status }
    {
        self.stamps.status
    }

    /// When the source of the value set it.
    pub fn source_timestamp(&self) -> Option<DateTime>
        ensures { result ≡ (stamps_in self.now).source_timestamp }
    {
        self.stamps.source_timestamp
    }

    /// What to add to that moment, in steps of 10 picoseconds; at most 9999.
    pub fn source_picoseconds(&self) -> Option<u16>
        ensures { result ≡ (stamps_in self.now).source_picoseconds }
    {
        match &self.stamps.source_picoseconds {
            None => None,
            Some(picoseconds) => Some(picoseconds.tens()),
        }
    }

    /// When the server got the value.
    pub fn server_timestamp(&self) -> Option<DateTime>
        ensures { result ≡ (stamps_in self.now).server_timestamp }
    {
        self.stamps.server_timestamp
    }

    /// What to add to that moment, in steps of 10 picoseconds; at most 9999.
    pub fn server_picoseconds(&self) -> Option<u16>
        ensures { result ≡ (stamps_in self.now).server_picoseconds }
    {
        match &self.stamps.server_picoseconds {
            None => None,
            Some(picoseconds) => Some(picoseconds.tens()),
        }
    }

    /// How deep it is nested: 1 more than its value, and 1 where there is none; at most 100.
    pub fn depth(&self) -> u8
        ensures depth { result ≡ data_depth self.now }
        ensures most { result ≤ deepest }
    {
        self.levels
    }
}
