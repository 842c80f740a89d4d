//! Numbers as they stand in bytes, in either order.

ghost use Rattle.std.specs.Prelude.{◌≡◌, ◌+◌, ◌≤◌, length};
ghost use Rattle.ua_capture.specs.Number.{big_16, big_32, little_16, little_32, number_16, number_32};

/// The order of the bytes of a number.
#[derive(Clone, Copy, Debug, PartialEq, Eq)]
pub enum Order {
    /// The least significant byte comes first.
    Little,
    /// The most significant byte comes first, as on the network.
    Big,
}

/// The number in the two bytes from `at` on, as the network orders them.
#[tactic(auto, unfolding(crate::specs::Number::big_16))]
pub(crate) fn network_16(bytes: &[u8], at: usize) -> u16
    requires { at + 2 ≤ length bytes.now }
    ensures { result ≡ big_16 bytes.now at }
{
    u16::from_be_bytes([bytes[at], bytes[at + 1]])
}

/// The number in the four bytes from `at` on, as the network orders them.
#[tactic(auto, unfolding(crate::specs::Number::big_32))]
pub(crate) fn network_32(bytes: &[u8], at: usize) -> u32
    requires { at + 4 ≤ length bytes.now }
    ensures { result ≡ big_32 bytes.now at }
{
    u32::from_be_bytes([bytes[at], bytes[at + 1], bytes[at + 2], bytes[at + 3]])
}

/// The number in the two bytes from `at` on.
#[tactic(auto, unfolding(crate::specs::Number::big_16, crate::specs::Number::little_16))]
pub(crate) fn ordered_16(order: Order, bytes: &[u8], at: usize) -> u16
    requires { at + 2 ≤ length bytes.now }
    ensures { result ≡ number_16 order bytes.now at }
{
    let two = [bytes[at], bytes[at + 1]];
    match order {
        Order::Little => u16::from_le_bytes(two),
        Order::Big => u16::from_be_bytes(two),
    }
}

/// The number in the four bytes from `at` on.
#[tactic(auto, unfolding(crate::specs::Number::big_32, crate::specs::Number::little_32))]
pub(crate) fn ordered_32(order: Order, bytes: &[u8], at: usize) -> u32
    requires { at + 4 ≤ length bytes.now }
    ensures { result ≡ number_32 order bytes.now at }
{
    let four = [bytes[at], bytes[at + 1], bytes[at + 2], bytes[at + 3]];
    match order {
        Order::Little => u32::from_le_bytes(four),
        Order::Big => u32::from_be_bytes(four),
    }
}
