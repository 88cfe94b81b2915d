//! What stands at a place of a page: a run and the place of the next, or none where the page ends.
ghost use Rattle.std.specs.Prelude.{◌≡◌, ℕ, ◌+◌, ◌≤◌, length, Some, Ok};
ghost use Rattle.packed.specs.Vlq.{read_vlq};
ghost use Rattle.rle.specs.Found.{found, header_of};
ghost use Rattle.rle.specs.Reading.{headed_at, packed_at, repeated_at, run_at};

use crate::pieces::value_bytes;
use packed::{Fault, FaultKind, bits_at, read_vlq};

/// The most values of a run.
const MAX_COUNT: u64 = 2147483647;

/// The most groups of eight of a packed run.
const MAX_GROUPS: u64 = MAX_COUNT / 8;

/// A run, and the place of what stands behind it.
#[derive(Clone, Copy, Debug, PartialEq, Eq)]
pub enum Found {
    Repeated {
        count: usize,
        value: u64,
        next: usize,
    },
    Packed {
        count: usize,
        start: usize,
        next: usize,
    },
}

// A run of a page whose header takes the bytes from `at` to `start`.
#[derive(Clone, Copy, Debug, PartialEq, Eq)]
struct Place<'a> {
    page: &'a [u8],
    width: usize,
    at: usize,
    start: usize,
    ghost narrow: { width ≤ 64 },
    ghost inside: { start ≤ length page.now },
}

/// Reads the run that begins at `at`; none where the page ends there.
// Page and place stay apart: a fault, and a run's own bytes, are told by their places in the page. A width stays a plain
// number, as in what writes runs.
pub fn run_at(page: &[u8], width: usize, at: usize) -> Result<Option<Found>, Fault>
    requires { width ≤ 64 }
    ensures { found result ≡ run_at width page.now at }
{
    if at > page.len() {
        return Ok(None);
    }
    let Some((header, taken)) = header_at(page, at)? else {
        return Ok(None);
    };
    let place = Place {
        page,
        width,
        at,
        start: at + taken,
    };
    place.run(header)
}

// The header that begins at `at`, and how many bytes it takes: none where the data ends before or inside it.
fn header_at(page: &[u8], at: usize) -> Result<Option<(u64, usize)>, Fault>
    requires { at ≤ length page.now }
    ensures value { result ≡ header_of (read_vlq page.now at) }
    ensures within { (n taken : ℕ) → result ≡ Ok (Some (n, taken)) → at + taken ≤ length page.now }
{
    match read_vlq(page, at) {
        Ok(header) => Ok(Some(header)),
        Err(fault) if fault.kind == FaultKind::DataEnds => Ok(None),
        Err(fault) => Err(fault),
    }
}

impl<'a> Place<'a> {
    fn run(&self, header: u64) -> Result<Option<Found>, Fault>
        ensures { found result ≡ headed_at self.now.width self.now.page.now self.now.at self.now.start header }
    {
        if header == 0 {
            Ok(None)
        } else if header % 2 == 0 {
            self.repeated(header / 2)
        } else {
            self.packed(header / 2)
        }
    }

    fn repeated(&self, count: u64) -> Result<Option<Found>, Fault>
        ensures { found result ≡ repeated_at self.now.width self.now.page.now self.now.at self.now.start count }
    {
        if count > MAX_COUNT {
            return Err(FaultKind::RunTooLong.at(self.at));
        }
        let bytes = value_bytes(self.width);
        if self.page.len() - self.start < bytes {
            return Err(FaultKind::RepeatedValueCut.at(self.start));
        }
        let value = bits_at(self.page, self.start, 0, 8 * bytes);
        Ok(Some(Found::Repeated {
            count: count as usize,
            value,
            next: self.start + bytes,
        }))
    }

    // A packed run that is cut has its complete values, and nothing follows it.
    fn packed(&self, groups: u64) -> Result<Option<Found>, Fault>
        ensures { found result ≡ packed_at self.now.width self.now.page.now self.now.at self.now.start groups }
    {
        if groups > MAX_GROUPS {
            return Err(FaultKind::RunTooLong.at(self.at));
        }
        let groups = groups as usize;
        let left = self.page.len() - self.start;
        if left >= groups * self.width {
            return Ok(Some(Found::Packed {
                count: 8 * groups,
                start: self.start,
                next: self.start + groups * self.width,
            }));
        }
        Ok(Some(Found::Packed {
            count: 8 * left / self.width,
            start: self.start,
            next: self.page.len(),
        }))
    }
}
