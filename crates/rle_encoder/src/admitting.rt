//! What an encoder refuses.
ghost use Rattle.std.specs.Prelude.{◌≡◌, ◌+◌, ◌*◌, ◌^◌, ◌<◌, ◌≤◌, [], ◌∷◌, ◌++◌, length};
ghost use Rattle.rle.specs.Runs.{page, value_bytes};
ghost use Rattle.packed.specs.Vlq.{vlq};
ghost use Rattle.rle_encoder.specs.Encoder.{Admits, AdmitsRun, accepted, more, width};
ghost use Rattle.rle_encoder.specs.declared.phase.Phase.TheVariants.{Repeating};

use crate::{Phase, RleEncoder};
use column::Refusal;
use packed::fits;
use rle::{value_bytes, vlq_length};

// How many values a list has at most: a count of them is a `usize`, and a run's, as `rle` reads it, a `u64`.
const MOST: usize = 2147483647;

impl<'a> RleEncoder<'a> {
    // Whether a pattern can be added.
    pub(crate) fn admit(&self, pattern: u64) -> Result<(), Refusal>
        ensures { Admits self.now pattern result }
    {
        if !fits(pattern, self.progress.width) {
            return Err(Refusal::PatternTooWide);
        }
        if self.progress.length >= MOST {
            return Err(Refusal::ListTooLong);
        }
        if self.length_with(pattern) > self.out.len() {
            return Err(Refusal::Full);
        }
        Ok(())
    }

    // Whether the value that repeats can be added `count` times more.
    pub(crate) fn admit_run(&self, count: usize) -> Result<(), Refusal>
        ensures { AdmitsRun self.now count result }
    {
        let Phase::Repeating { count: before } = self.progress.phase else {
            return Err(Refusal::NoRepeatingRun);
        };
        if count > MOST - self.progress.length {
            return Err(Refusal::ListTooLong);
        }
        if self.length_of_run(before, count) > self.out.len() {
            return Err(Refusal::Full);
        }
        Ok(())
    }

    // The page's length with one value more.
    fn length_with(&self, pattern: u64) -> usize
        ensures { result ≡ length (page (width self.now) (accepted self.now ++ pattern ∷ [])) }
    {
        let written = self.progress.written;
        let width = self.progress.width;
        let bytes = value_bytes(width);
        match (self.progress.phase, self.progress.is_current(pattern)) {
            (Phase::Repeating { count }, true) => self.length_of_run(count, 1),
            (Phase::Repeating { count }, false) => self.length_of_run(count, 0) + 1 + bytes,
            (Phase::Gathering, same) => {
                if self.progress.alike_with(same) {
                    written + 1 + bytes
                } else {
                    written + 1 + width
                }
            }
            (Phase::Packing { .. }, same) => {
                if self.progress.gathered.is_full() && self.progress.alike_with(same) {
                    written + 1 + bytes
                } else {
                    written + width
                }
            }
        }
    }

    // The page's length if the value that repeats comes `count` times more.
    fn length_of_run(&self, before: usize, count: usize) -> usize
        requires run { self.now.progress.phase ≡ Repeating before }
        requires short { count ≤ 2147483647 }
        ensures run { result ≡ length (page (width self.now) (accepted self.now ++ more self.now count)) }
        ensures value { result
            ≡ self.now.progress.written + length (vlq (2 * (before + count))) + value_bytes (width self.now) }
        ensures small { result < 2 ^ 63 }
    {
        let run = vlq_length(2 * (before + count) as u64) + value_bytes(self.progress.width);
        self.progress.written + run
    }
}
