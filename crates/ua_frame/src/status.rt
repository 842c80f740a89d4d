//! Status codes, named as in OPC 10000-6, annex A.

/// The type of a frame is unknown or out of turn, or its flag is not one of its type.
pub const BAD_TCP_MESSAGE_TYPE_INVALID: u32 = 0x807E_0000;

/// A frame is longer than the end that receives it takes.
pub const BAD_TCP_MESSAGE_TOO_LARGE: u32 = 0x8080_0000;

/// An end has not got what the connection needs, as a buffer of the least size.
pub const BAD_TCP_NOT_ENOUGH_RESOURCES: u32 = 0x8081_0000;

/// The url of a Hello, or that of a ReverseHello, is longer than 4095 bytes.
pub const BAD_TCP_ENDPOINT_URL_INVALID: u32 = 0x8083_0000;

/// The bytes spell nothing of the type that should stand there.
pub const BAD_DECODING_ERROR: u32 = 0x8007_0000;
