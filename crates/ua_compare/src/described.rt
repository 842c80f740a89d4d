//! Descriptions that stand in a list under a name.

ghost use Rattle.std.specs.Prelude.{◌≡◌, ◌≤◌, Bool, true, length, OnOk, string_bytes};
ghost use Rattle.ua_compare.specs.Said.{Says};

use std::alloc::Global;
use ua_value::NoMemory;

/// A description that stands in a list under a name.
pub(crate) trait Described: Eq {
    ghost named: { Self → Self → Bool };

    /// Whether the other one has its name.
    fn is_named_as(&self, other: &Self) -> bool
        ensures { result ≡ named self.now other.now };

    /// Appends its name.
    fn add_name(&self, text: &mut String) -> Result<(), NoMemory>
        ensures { OnOk result (length (string_bytes text.old) ≤ length (string_bytes text.new)) };

    /// Appends a line for each field in which the other one of its name differs, each with `start` before it.
    fn add_fields(
        &self,
        alloc: Global,
        found: &Self,
        start: &str,
        text: &mut String,
    ) -> Result<(), NoMemory>
        requires { named self.now found.now ≡ true }
        ensures { OnOk result (Says (Self.eq self.now found.now) (string_bytes text.old) (string_bytes text.new)) };

    ghost decides: { (a b : Self) → Self.eq a b ≡ true → a ≡ b };
}
