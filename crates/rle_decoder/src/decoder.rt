//! Reads the values of a page, one run after the other.
ghost use Rattle.std.specs.Prelude.{◌≡◌, ◌*◌, ◌^◌, ◌<◌, ◌≤◌, length, replicate, Some, Ok, nat_le};
ghost use Rattle.rle.specs.Found.{found};
ghost use Rattle.rle_decoder.specs.Run.{bits_end, count_of, next_of, value_of};

use bit_reader::BitReader;
use column::{Declined, Element, Fault, Refusal};
use packed::bits_at;
use rle::{Found, has_width, run_at};

/// Reads the values of a page. It means the values that wait, and how they end.
#[derive(Clone, Copy, Debug, PartialEq, Eq)]
pub struct RleDecoder<'a> {
    page: &'a [u8],
    width: usize,
    // what stands where the last run was read
    run: Result<Option<Found>, Fault>,
    // how many values of it were taken
    taken: usize,
    ghost narrow: { width ≤ 64 },
    ghost counted: { taken ≤ count_of (found run) },
    ghost in_page: { bits_end width (found run) ≤ 8 * length page.now },
    ghost value_fits: { value_of (found run) < 2 ^ 64 },
}

impl<'a> RleDecoder<'a> {
    ghost use Rattle.std.specs.Prelude.{◌+◌, min, map, take, if◌then◌else◌, Err, nat_lt};
    ghost use Rattle.column.specs.Taking.{Opening, after_taking, cells_with, first_of, one_of, taking, taking_from};
    ghost use Rattle.column.specs.declared.Refusal.TheVariants.{ElementTooNarrow};
    ghost use Rattle.packed.specs.Bytes.{overwrite};
    ghost use Rattle.rle.specs.Reading.{reads, run_at as stand_at};
    ghost use Rattle.rle_decoder.specs.Pages.{ReadIsLenient, ReadsAsItStands};
    ghost use Rattle.rle_decoder.specs.Decoder.{Refilled, Took, left_of, page_of, state_of, waiting_of};

    /// A decoder of a page, which stands at its first value. A page says itself how many values it has.
    ///
    /// A page that stands in the public format opens and reads as its values and then the end; what is read without a
    /// fault stands in the format, but for the named leniencies.
    pub fn open(page: &'a [u8], width: u32, _count: usize) -> Result<RleDecoder<'a>, Declined>
        ensures opening { Opening state_of (nat_le width 64) width page.now (reads width page.now) result }
        ensures standing { ReadsAsItStands width page.now }
        ensures lenient { ReadIsLenient width page.now }
    {
        RleDecoder::open_page(page, width)
    }

    // Reads the page's first run, apart from the public call, whose theorems need nothing of this.
    fn open_page(page: &'a [u8], width: u32) -> Result<RleDecoder<'a>, Declined>
        ensures { Opening state_of (nat_le width 64) width page.now (reads width page.now) result }
    {
        if !has_width(width) {
            return Err(Refusal::BadWidth.into());
        }
        let width = width as usize;
        let run = run_at(page, width, 0)?;
        Ok(RleDecoder {
            page,
            width,
            run: Ok(run),
            taken: 0,
        })
    }

    // Takes one value.
    pub(crate) fn take_one<E: Element>(&mut self) -> Result<Option<E>, Declined>
        ensures answer { result ≡ one_of E.Element (taking_from E.Element 1 (state_of self.old)) }
        ensures state { state_of self.new
            ≡ after_taking (taking_from E.Element 1 (state_of self.old)) (state_of self.old) }
    {
        self.check_element::<E>()?;
        if !self.refill(0)? {
            return Ok(None);
        }
        let value = self.first();
        self.pass_run(1);
        Ok(Some(E::from_pattern(value)))
    }

    // Takes as many values as there are cells, or those that wait, into the first of them. Runs differ in length, and a fault
    // is told with the number taken: no iterator steps through that more plainly.
    pub(crate) fn take_values<E: Element>(&mut self, cells: &mut [E]) -> Result<usize, Declined>
        ensures answer { result ≡ (taking_from E.Element (length cells.old) (state_of self.old)).answer }
        ensures cells { cells.new
            ≡ cells_with E.Element cells.old 0 (taking_from E.Element (length cells.old) (state_of self.old)) }
        ensures state { state_of self.new
            ≡ after_taking (taking_from E.Element (length cells.old) (state_of self.old)) (state_of self.old) }
    {
        self.check_element::<E>()?;
        let mut taken = 0;
        while taken < cells.len() && self.refill(taken)? {
            taken += self.take_run(&mut cells[taken..]);
        }
        Ok(taken)
    }

    // Passes over `count` values, or those that wait. One function over a closure for this loop and the one that fills
    // cells would be longer than the two.
    pub(crate) fn pass_values(&mut self, count: usize) -> Result<usize, Declined>
        ensures answer { result ≡ (taking count (waiting_of self.old)).answer }
        ensures state { state_of self.new
            ≡ after_taking (taking count (waiting_of self.old)) (state_of self.old) }
    {
        let mut passed = 0;
        while passed < count && self.refill(passed)? {
            passed += self.pass_run(count - passed);
        }
        Ok(passed)
    }

    // Refuses elements that have fewer bits than the column.
    fn check_element<E: Element>(&self) -> Result<(), Refusal>
        ensures { result
            ≡ (if nat_lt E.Element.WIDTH self.now.width then Err ElementTooNarrow else Ok (record {})) }
    {
        if (E::WIDTH as usize) < self.width {
            return Err(Refusal::ElementTooNarrow);
        }
        Ok(())
    }

    // Goes on to a run that has values left, and answers whether there is one. A fault is told behind `count` values.
    fn refill(&mut self, count: usize) -> Result<bool, Declined>
        ensures took { Took self.old self.new 0 }
        ensures answer { Refilled self.new count result }
    {
        while self.left() == 0 {
            let run = self
                .run
                .map_err(|fault| Declined::Faulted { fault, count })?;
            let Some(found) = run else {
                return Ok(false);
            };
            self.load(next_after(found));
        }
        Ok(true)
    }

    // Goes on to the run that begins at a place.
    fn load(&mut self, at: usize)
        ensures page { page_of self.new ≡ page_of self.old }
        ensures width { self.new.width ≡ self.old.width }
        ensures run { found self.new.run ≡ stand_at self.old.width (page_of self.old) at }
        ensures taken { self.new.taken ≡ 0 }
    {
        self.run = run_at(self.page, self.width, at);
        self.taken = 0;
    }

    // How many values of the current run are left.
    fn left(&self) -> usize
        ensures { result ≡ left_of self.now }
    {
        match self.run {
            Ok(Some(Found::Repeated { count, .. } | Found::Packed { count, .. })) => {
                count - self.taken
            }
            Ok(None) | Err(_) => 0,
        }
    }

    // Passes over the next values of the current run, `count` or those that are left, and answers how many they were.
    fn pass_run(&mut self, count: usize) -> usize
        ensures count { result ≡ min count (left_of self.old) }
        ensures took { Took self.old self.new result }
    {
        let passed = count.min(self.left());
        self.taken += passed;
        passed
    }

    // Takes values of the current run into the first cells, as many as fit or are left, and answers how many.
    fn take_run<E: Element>(&mut self, cells: &mut [E]) -> usize
        ensures count { result ≡ min (length cells.old) (left_of self.old) }
        ensures cells { cells.new
            ≡ overwrite cells.old 0 (map E.Element.made (take result (waiting_of self.old).values)) }
        ensures took { Took self.old self.new result }
    {
        let count = self.left().min(cells.len());
        self.copy_run(&mut cells[..count]);
        self.pass_run(count)
    }

    // Puts the next values of the current run into the cells.
    fn copy_run<E: Element>(&self, cells: &mut [E])
        requires { length cells.old ≤ left_of self.now }
        ensures { cells.new ≡ map E.Element.made (take (length cells.old) (waiting_of self.now).values) }
    {
        match self.run {
            Ok(Some(Found::Packed { start, .. })) => {
                BitReader::at(self.page, self.bit_from(start)).fill_batch(cells, self.width);
            }
            Ok(Some(Found::Repeated { value, .. })) => fill_cells(cells, E::from_pattern(value)),
            Ok(None) | Err(_) => {}
        }
    }

    // The next value of the current run: its bits alone, with no reader set up for them.
    fn first(&self) -> u64
        requires { 0 < left_of self.now }
        ensures { first_of (λ v. v) (waiting_of self.now).values ≡ Some result }
    {
        match self.run {
            Ok(Some(Found::Packed { start, .. })) => {
                let bit = self.bit_from(start);
                bits_at(
                    self.page,
                    (bit / 8) as usize,
                    (bit % 8) as usize,
                    self.width,
                )
            }
            Ok(Some(Found::Repeated { value, .. })) => value,
            Ok(None) | Err(_) => unreachable!(),
        }
    }

    // The bit at which the next value begins of a run that is packed from a byte on. A page may have more bits than a
    // `usize` counts. A reader in the run's place would hold the page a second time, and a fact that the two are one.
    fn bit_from(&self, start: usize) -> u128
        ensures { result ≡ 8 * start + self.now.taken * self.now.width }
    {
        start as u128 * 8 + self.taken as u128 * self.width as u128
    }
}

// Where the run behind another begins.
fn next_after(run: Found) -> usize
    ensures { next_of (found (Ok (Some run))) ≡ Some result }
{
    match run {
        Found::Repeated { next, .. } | Found::Packed { next, .. } => next,
    }
}

// Puts a value into all cells. The library's `fill` asks that a clone cannot fail, which a bound does not say.
fn fill_cells<E: Element>(cells: &mut [E], value: E)
    ensures { cells.new ≡ replicate (length cells.old) value }
{
    for cell in cells.iter_mut() {
        *cell = value;
    }
}
