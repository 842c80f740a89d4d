//! Status codes, named as in OPC 10000-6, annex A.

/// An answer is larger than the client takes.
pub(crate) const BAD_RESPONSE_TOO_LARGE: u32 = 0x80B9_0000;

/// An answer is to nothing that was asked.
pub(crate) const BAD_UNKNOWN_RESPONSE: u32 = 0x8009_0000;
