//! The bit layer by name: a reader and a writer of packed values over lent memory, and what they are made of.
//!
//! These are inner functions: the calls above them make every check, so they may have a `requires`.
#![tactic(auto)]

pub use bit_reader::BitReader;
pub use bit_writer::BitWriter;
pub use packed::{
    Element, Fault, FaultKind, Layer, fits, from_zigzag, read_vlq, to_zigzag, unpack, write_vlq,
};
