//! The RLE/bit-packed hybrid as a coding of columns.
#![tactic(auto)]

ghost use Rattle.column.specs.Coding.{Checking};
ghost use Rattle.column.specs.Trips.{Lawful, ReturnTrip, kind_of};
ghost use Rattle.column.specs.Working.{PageWorked};
ghost use Rattle.std.specs.Prelude.{length};

use column::{Coding, Declined, Element, Meaning, Pass, Put, Refusal, Take, work_page};
pub use rle_decoder::RleDecoder;
pub use rle_encoder::{RleEncoder, RlePages, RlePass};

/// The coding of columns as RLE/bit-packed hybrid pages, of 0 to 64 bits a value.
#[derive(Clone, Copy, Debug, PartialEq, Eq)]
pub struct Rle;

impl<'a> Coding<'a> for Rle {
    type Code = RlePages;

    type Permit = RlePass;

    type Enc = RleEncoder<'a>;

    type Dec = RleDecoder<'a>;

    // the check cannot take over the trait's clause at this method, and asks that it is written out
    fn check(out: &[u8], width: u32) -> Result<RlePass, Refusal>
        ensures { Checking ⟦<RlePass as Pass>⟧ ⟦<RlePages as Meaning>⟧ width (length out.now) result }
    {
        RleEncoder::check(out, width)
    }

    fn make(pass: RlePass, out: &'a mut [u8]) -> RleEncoder<'a> {
        RleEncoder::new(pass, out)
    }

    fn open(page: &'a [u8], width: u32, count: usize) -> Result<RleDecoder<'a>, Declined> {
        RleDecoder::open(page, width, count)
    }
}

/// Works a page of the hybrid by one call: see `column::work_page`, of which this is the instance.
pub fn work_rle_page<'a, P: Element, E: Element>(
    width: u32,
    out: &'a mut [u8],
    values: &[P],
    puts: &mut [Put<P>],
    cells: &mut [E],
    takes: &mut [Take<E>],
) -> Result<(usize, &'a [u8]), Declined>
    ensures worked { PageWorked ⟦<RlePages as Meaning>⟧ P.Element E.Element width (length out.old)
        values.now puts.old cells.old takes.old puts.new cells.new takes.new result }
    ensures puts_lawful { Lawful (kind_of P.Element) }
    ensures takes_lawful { Lawful (kind_of E.Element) }
    ensures trip { ReturnTrip ⟦<RlePages as Meaning>⟧ }
{
    work_page::<Rle, P, E>(width, out, values, puts, cells, takes)
}
