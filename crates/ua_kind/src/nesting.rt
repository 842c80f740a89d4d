//! How deep values may be nested.

ghost use Rattle.std.specs.Prelude.{◌≡◌};
ghost use Rattle.ua_kind.specs.Nesting.{deepest};

/// How deep Variants, DataValues and DiagnosticInfos may be nested in one another (OPC 10000-6, 5.2.2.12 and 5.2.2.16
/// have a reader take at least so many).
pub const DEEPEST: u8 = 100;

/// How many of them a reader takes, one in the other.
pub fn allowance() -> u8
    ensures { result ≡ deepest }
{
    DEEPEST
}
