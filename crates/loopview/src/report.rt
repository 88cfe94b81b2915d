//! How the readings and the bytes of their columns are shown.
ghost use Rattle.std.specs.Prelude.{◌≡◌, ◌+◌, ◌-◌, ◌^◌, ◌≤◌, length};
ghost use Rattle.loopview.specs.declared.report.Extent.TheVariants.{Ends, Every};

use crate::readings::Reading;
use std::fmt;

/// How many rows a long table shows at its start.
const FRONT_ROWS: usize = 12;

/// How many rows a long table shows at its end.
const BACK_ROWS: usize = 4;

/// How many bytes of a column are shown.
const FRONT_BYTES: usize = 16;

/// Which rows of a table are shown.
#[derive(Clone, Copy, Debug, PartialEq, Eq)]
pub enum Extent {
    /// The first and the last rows, with a note of how many are left out between them.
    Ends,
    Every,
}

impl Extent {
    /// How many of `count` rows are left out.
    fn left_out(self, count: usize) -> usize
        ensures { elim self [ Ends ↦ result ≡ count - 16 | Every ↦ result ≡ 0 ] }
    {
        match self {
            Extent::Ends => count.saturating_sub(FRONT_ROWS + BACK_ROWS),
            Extent::Every => 0,
        }
    }
}

/// The readings as a table, with a header.
#[derive(Clone, Copy, Debug, PartialEq, Eq)]
pub struct Table<'a> {
    readings: &'a [Reading],
    extent: Extent,
}

impl<'a> Table<'a> {
    pub fn new(readings: &'a [Reading], extent: Extent) -> Table<'a>
        ensures readings { result.readings.now ≡ readings.now }
        ensures extent { result.extent ≡ extent }
    {
        Table { readings, extent }
    }
}

impl fmt::Display for Table<'_> {
    fn fmt<W: fmt::Write>(&self, f: &mut fmt::Formatter<W>) -> fmt::Result {
        let readings = self.readings;
        let more = self.extent.left_out(readings.len());
        writeln!(
            f,
            "{:>6}  {:>7}  {:>5}  {:>20}",
            "number", "address", "value", "tick"
        )?;
        if more == 0 {
            return write_rows(f, 1, readings);
        }
        let back = FRONT_ROWS + more;
        write_rows(f, 1, &readings[..FRONT_ROWS])?;
        writeln!(f, ".. {more} more ..")?;
        write_rows(f, back + 1, &readings[back..])
    }
}

/// Writes a row for each reading, the first under the number `first`.
fn write_rows<W: fmt::Write>(
    f: &mut fmt::Formatter<W>,
    first: usize,
    readings: &[Reading],
) -> fmt::Result
    requires { first + length readings.now ≤ 2 ^ 64 }
{
    for (index, reading) in readings.iter().enumerate() {
        // A tick is written in at most 20 characters.
        writeln!(
            f,
            "{:>6}  {:>7}  {:>5}  {:>20}",
            first + index,
            reading.address(),
            reading.value(),
            reading.tick()
        )?;
    }
    Ok(())
}

/// The first bytes of a column, in hexadecimal; two dots stand for the rest.
#[derive(Clone, Copy, Debug, PartialEq, Eq)]
pub struct HexFront<'a>(pub &'a [u8]);

impl fmt::Display for HexFront<'_> {
    fn fmt<W: fmt::Write>(&self, f: &mut fmt::Formatter<W>) -> fmt::Result {
        let count = self.0.len();
        if count == 0 {
            return f.write_str("no bytes");
        }
        let shown = count.min(FRONT_BYTES);
        write!(f, "first {shown} bytes:")?;
        for byte in self.0.iter().take(shown) {
            write!(f, " {byte:02X}")?;
        }
        if count > shown {
            f.write_str(" ..")?;
        }
        Ok(())
    }
}
