//! A fault of a page: what is wrong, where, and which layer found it. It climbs through every layer unaltered.
ghost use Rattle.packed.specs.Faults.{told};
ghost use Rattle.std.specs.Prelude.{◌≡◌};

use std::fmt;
use thiserror::Error;

/// What is wrong with a page. The kinds are told by number, from 7 on in this order.
#[derive(Clone, Copy, Debug, PartialEq, Eq)]
pub enum FaultKind {
    /// a VLQ does not fit 64 bits
    VlqTooLarge = 7,
    /// the data ends inside a field
    DataEnds,
    /// a run stands for more than 2^31 - 1 values
    RunTooLong,
    /// the data ends inside a repeated value
    RepeatedValueCut,
    /// a block size that is 0, above 65,536 or no multiple of 128
    BadBlockSize,
    /// a number of mini blocks that is 0, does not divide the block, or leaves no multiple of 32 values in one
    BadMiniBlocks,
    /// more than 2^31 - 1 values
    TotalTooLarge,
    /// a first value or a smallest difference outside the column's signed numbers
    ValueOutOfRange,
    /// a mini block packed wider than its column
    MiniWidthTooLarge,
    /// the page ended before the count of values
    TooFewValues,
}

/// The layer that finds a fault.
#[derive(Clone, Copy, Debug, PartialEq, Eq)]
pub enum Layer {
    Bits,
    Column,
    Count,
}

/// A fault and its place: a byte offset from the page's first byte, and for too few values how many there were.
#[derive(Clone, Copy, Debug, PartialEq, Eq, Error)]
#[error("fault {number} at {place}", number = .kind.number())]
pub struct Fault {
    pub kind: FaultKind,
    pub place: usize,
}

impl FaultKind {
    /// The fault of this kind at a place.
    pub fn at(self, place: usize) -> Fault
        ensures { result ≡ record { kind = self; place = place } }
    {
        Fault { kind: self, place }
    }

    // The number under which such a fault is told.
    fn number(self) -> u8
        ensures { result ≡ (told self).0 }
    {
        self as u8
    }
}

impl Fault {
    /// The number under which a fault is told.
    pub fn number(&self) -> u8
        ensures { result ≡ (told self.now.kind).0 }
    {
        self.kind.number()
    }

    /// The layer that finds such a fault.
    pub fn layer(&self) -> Layer
        ensures { result ≡ (told self.now.kind).1 }
    {
        match self.kind {
            FaultKind::VlqTooLarge | FaultKind::DataEnds => Layer::Bits,
            FaultKind::TooFewValues => Layer::Count,
            _ => Layer::Column,
        }
    }
}

impl fmt::Display for Layer {
    fn fmt<W: fmt::Write>(&self, f: &mut fmt::Formatter<W>) -> fmt::Result {
        f.write_str(match self {
            Layer::Bits => "bits",
            Layer::Column => "column",
            Layer::Count => "count",
        })
    }
}
