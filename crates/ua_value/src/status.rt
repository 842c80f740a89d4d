//! Status codes (OPC 10000-6, 5.2.2.11).

ghost use Rattle.std.specs.Prelude.{◌≡◌, ◌&&◌, nat_lt, nat_le, Some, option_copied};
ghost use Rattle.std.specs.Int.{w32, from_le_bytes};
ghost use Rattle.ua_value.specs.Status.{status_code, lawful_status_code, fixed_status_code, status_name, status_text};

use crate::bulk::{Fixed, emit_fixed, read_fixed};
use crate::fault::{NoMemory, ReadFault};
use crate::wire::{Sink, Wire};
use std::alloc::Global;
use std::fmt;

/// The number of a status.
#[derive(Clone, Copy, Debug, PartialEq, Eq)]
pub struct StatusCode(pub u32);

impl StatusCode {
    /// Whether the severity is good: bits 30 and 31 are 0 (OPC 10000-4, 7.39.1).
    pub fn is_good(self) -> bool
        ensures { result ≡ nat_lt self.0 0x4000_0000 }
    {
        self.0 < 0x4000_0000
    }

    /// Whether the severity is uncertain: bit 30 is 1, and bit 31 is 0 (OPC 10000-4, 7.39.1).
    pub fn is_uncertain(self) -> bool
        ensures { result ≡ (nat_le 0x4000_0000 self.0 && nat_lt self.0 0x8000_0000) }
    {
        0x4000_0000 <= self.0 && self.0 < 0x8000_0000
    }

    /// Whether the severity is bad: bit 31 is 1. A severity of two ones is reserved, and counts as bad (OPC 10000-4,
    /// 7.39.1).
    pub fn is_bad(self) -> bool
        ensures { result ≡ nat_le 0x8000_0000 self.0 }
    {
        self.0 >= 0x8000_0000
    }
}

/// Eight hex digits in upper case, and behind a blank the name in OPC 10000-4, 7.39.2 or OPC 10000-6 annex A where it
/// is a status that this stack uses.
#[tactic(auto, using(crate::proofs::Digits::eight_digits))]
impl fmt::Display for StatusCode {
    ghost output = { λ s. Some (status_text s.0) };

    fn fmt<W: fmt::Write>(&self, f: &mut fmt::Formatter<W>) -> fmt::Result {
        let code = self.0;
        match name_of(code) {
            Some(name) => write!(f, "{code:08X} {name}"),
            None => write!(f, "{code:08X}"),
        }
    }
}

/// The name of a status that this stack uses.
#[tactic(auto, unfolding(crate::specs::Status::status_name))]
fn name_of(code: u32) -> Option<&'static str>
    ensures { option_copied result ≡ status_name code }
{
    match code {
        0x0000_0000 => Some("Good"),
        0x8007_0000 => Some("BadDecodingError"),
        0x8009_0000 => Some("BadUnknownResponse"),
        0x800b_0000 => Some("BadServiceUnsupported"),
        0x8053_0000 => Some("BadRequestTypeInvalid"),
        0x8054_0000 => Some("BadSecurityModeRejected"),
        0x8055_0000 => Some("BadSecurityPolicyRejected"),
        0x807e_0000 => Some("BadTcpMessageTypeInvalid"),
        0x807f_0000 => Some("BadTcpSecureChannelUnknown"),
        0x8080_0000 => Some("BadTcpMessageTooLarge"),
        0x8081_0000 => Some("BadTcpNotEnoughResources"),
        0x8083_0000 => Some("BadTcpEndpointUrlInvalid"),
        0x8087_0000 => Some("BadSecureChannelTokenUnknown"),
        0x8088_0000 => Some("BadSequenceNumberInvalid"),
        0x80b9_0000 => Some("BadResponseTooLarge"),
        _ => None,
    }
}

#[tactic(auto, unfolding(crate::specs::Status::status_code))]
impl Wire for StatusCode {
    ghost format = { status_code };

    ghost most = { 4 };

    ghost Grows = { ⊥ };

    fn len(&self) -> u64 {
        self.0.len()
    }

    fn emit<S: Sink>(&self, out: &mut S) -> Result<(), NoMemory> {
        self.0.emit(out)
    }

    fn copy(&self) -> Result<StatusCode, NoMemory> {
        Ok(*self)
    }

    #[inline(always)]
    fn read_front(alloc: Global, input: &[u8]) -> Result<(StatusCode, &[u8]), ReadFault> {
        let (code, rest) = u32::read_front(alloc, input)?;
        Ok((StatusCode(code), rest))
    }

    fn read_items(
        alloc: Global,
        count: u32,
        input: &[u8],
    ) -> Result<(Vec<StatusCode>, &[u8]), ReadFault> {
        read_fixed::<StatusCode, 4>(alloc, count, input)
    }

    fn emit_items<S: Sink>(items: &[StatusCode], out: &mut S) -> Result<(), NoMemory> {
        emit_fixed::<StatusCode, S, 4>(items, out)
    }

    fn most_in(bytes: usize) -> usize {
        bytes / 4
    }

    ghost laws = { lawful_status_code };
}

#[tactic(auto, unfolding(crate::specs::Status::status_code))]
impl Fixed<4> for StatusCode {
    ghost format = { status_code };

    ghost value = { λ bytes. record { 0 = from_le_bytes w32 bytes } };

    fn of_bytes(bytes: &[u8; 4]) -> StatusCode {
        StatusCode(u32::of_bytes(bytes))
    }

    fn to_bytes(self) -> [u8; 4] {
        self.0.to_bytes()
    }

    ghost fixed = { fixed_status_code };
}
