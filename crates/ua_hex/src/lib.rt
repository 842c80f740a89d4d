//! Digits of hex, many at a time: bytes as the crate `hex` reads and writes them. Whole blocks go through loops without a
//! branch; of an even number of digits `hex` itself says what is wrong.
#![tactic(auto)]

mod decoding;
mod encoding;

pub use decoding::decode;
pub use encoding::encode_onto;
