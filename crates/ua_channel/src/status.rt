//! Status codes, named as in OPC 10000-6, annex A.

pub use ua_frame::status::BAD_TCP_NOT_ENOUGH_RESOURCES;

/// A frame names another channel.
pub const BAD_TCP_SECURE_CHANNEL_UNKNOWN: u32 = 0x807F_0000;

/// A frame's security policy is not the one that is spoken.
pub const BAD_SECURITY_POLICY_REJECTED: u32 = 0x8055_0000;

/// A sequence number does not follow the last one.
pub const BAD_SEQUENCE_NUMBER_INVALID: u32 = 0x8088_0000;

/// An open request issues where it should renew, or the other way round.
pub const BAD_REQUEST_TYPE_INVALID: u32 = 0x8053_0000;

/// An open request asks for security that is not offered.
pub const BAD_SECURITY_MODE_REJECTED: u32 = 0x8054_0000;

/// A token is none of those that are known, or too old.
pub const BAD_SECURE_CHANNEL_TOKEN_UNKNOWN: u32 = 0x8087_0000;
