//! What a detector head reports.
ghost use Rattle.std.proofs.Common.{lit≤};
ghost use Rattle.column.specs.Heads.{IsReading, pattern_of, reading_of, reading_below, reading_makes, reading_wraps};

use packed::Element;

/// A head's address on the loop and its analogue value.
#[derive(Clone, Copy, Debug, PartialEq, Eq)]
pub struct HeadReading {
    pub address: u8,
    pub value: u8,
}

impl Element for HeadReading {
    const WIDTH: u32 = 16;

    ghost WIDTH = { 16 };

    ghost proper = { IsReading };

    ghost pattern = { pattern_of };

    ghost made = { reading_of };

    ghost narrow = { (lit≤ tt, lit≤ tt) };

    ghost below = { reading_below };

    ghost makes = { reading_makes };

    ghost wraps = { reading_wraps };

    fn to_pattern(self) -> u64 {
        self.address as u64 * 256 + self.value as u64
    }

    fn from_pattern(p: u64) -> HeadReading {
        HeadReading {
            address: ((p / 256) % 256) as u8,
            value: (p % 256) as u8,
        }
    }
}
