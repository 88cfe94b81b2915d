//! Numbers as bytes: variable-length numbers, zigzag, packed values and the kernels that unpack them, and the faults that
//! reading can meet.
//!
//! These are inner functions: the calls above them make every check, so they may have a `requires`.
#![tactic(auto)]

mod bit_pack;
mod element;
mod faults;
mod vlq;
mod zigzag;

pub use bit_pack::{bits_at, fits, unpack};
pub use element::Element;
pub use faults::{Fault, FaultKind, Layer};
pub use vlq::{read_vlq, write_vlq};
pub use zigzag::{from_zigzag, to_zigzag};
