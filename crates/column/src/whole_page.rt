//! Working a whole page by one call, for every coding and every element type.
ghost use Rattle.column.specs.Trips.{Lawful, ReturnTrip, kind_of};
ghost use Rattle.column.specs.Working.{PageWorked};
ghost use Rattle.std.specs.Prelude.{length};

use crate::coding::{Coding, Encoder};
use crate::declined::Declined;
use crate::working::{Put, Take, put_all, take_all};
use packed::Element;

/// Works a page: makes the puts on a fresh encoder over the buffer, finishes it, opens the page with the accepted number as
/// count, and makes the takes. Every answer is written down beside its call. Answers the page's length and the buffer.
///
/// Whichever calls were refused, each pattern taken is the next accepted one, and the value made of it has that pattern; behind
/// the last come at most seven zeros, then the end, and no fault (`returned` in `worked`, for element types that keep the third
/// law, as these do). The same holds over every list of calls (`trip`).
//
// The slices are parameters: a clause names what the lent slices of a struct hold afterwards by places, `script.exit.1.now`.
pub fn work_page<'a, C: Coding<'a>, P: Element, E: Element>(
    width: u32,
    out: &'a mut [u8],
    values: &[P],
    puts: &mut [Put<P>],
    cells: &mut [E],
    takes: &mut [Take<E>],
) -> Result<(usize, &'a [u8]), Declined>
    ensures worked { PageWorked C.Code.Meaning P.Element E.Element width (length out.old)
        values.now puts.old cells.old takes.old puts.new cells.new takes.new result }
    ensures puts_lawful { Lawful (kind_of P.Element) }
    ensures takes_lawful { Lawful (kind_of E.Element) }
    ensures trip { ReturnTrip C.Code.Meaning }
{
    write_and_read::<C, P, E>(width, out, values, puts, cells, takes)
}

// The work itself, apart from the public call, where a wrong argument so errs at its contract.
fn write_and_read<'a, C: Coding<'a>, P: Element, E: Element>(
    width: u32,
    out: &'a mut [u8],
    values: &[P],
    puts: &mut [Put<P>],
    cells: &mut [E],
    takes: &mut [Take<E>],
) -> Result<(usize, &'a [u8]), Declined>
    ensures worked { PageWorked C.Code.Meaning P.Element E.Element width (length out.old)
        values.now puts.old cells.old takes.old puts.new cells.new takes.new result }
    ensures puts_lawful { Lawful (kind_of P.Element) }
    ensures takes_lawful { Lawful (kind_of E.Element) }
    ensures trip { ReturnTrip C.Code.Meaning }
{
    let pass = C::check(out, width)?;
    let mut encoder = C::make(pass, out);
    let count = put_all(&mut encoder, values, puts);
    let (length, buffer) = encoder.finish();
    let buffer = &*buffer;
    let mut decoder = C::open(&buffer[0..length], width, count)?;
    take_all(&mut decoder, cells, takes);
    Ok((length, buffer))
}
