//! Hexadecimal digits in lower case, 16 bytes or 32 digits at a step of vectors.
#![tactic(auto)]

pub mod decode;
pub mod encode;

pub use decode::decode_into;
pub use encode::encode_into;
