//! A decoder of pages of the RLE/bit-packed hybrid.
#![tactic(auto)]

mod calls;
mod decoder;

pub use decoder::RleDecoder;
