//! The end of an encoder: its buffer goes back.
ghost use Rattle.std.specs.Prelude.{◌≡◌, ◌+◌, ◌-◌, ◌≤◌, ◌++◌, false, length, take, replicate};
ghost use Rattle.column.specs.Putting.{Unfinished, finished};
ghost use Rattle.rle.specs.Runs.{padded, page};
ghost use Rattle.packed.specs.Bytes.{overwrite};
ghost use Rattle.rle_encoder.specs.Encoder.{accepted, repeats, room, width};
ghost use Rattle.rle_encoder.specs.Encoding.{Kept, accepted_of, group_bytes, run_bytes};
ghost use Rattle.rle_encoder.specs.Finishing.{Ended, Finished, StandsFor};

use crate::adding::header_of;
use crate::progress::Progress;
use crate::storing::write_bytes;
use crate::{Phase, RleEncoder};
use rle::{group_bytes, repeated_bytes};

impl<'a> RleEncoder<'a> {
    /// Writes the page to the buffer's front and zeros behind it, and answers the page's length.
    pub fn finish(self) -> usize
        ensures length { result ≡ length (page (width self.entry) (accepted self.entry)) }
        ensures bytes { self.exit.0.now ≡ finished (page (width self.entry) (accepted self.entry)) (room self.entry) }
        ensures stands { StandsFor (width self.entry) (take result self.exit.0.now) (accepted self.entry) }
    {
        let RleEncoder { out, progress } = self;
        progress.close(out)
    }

    /// Drops the encoder unfinished. Which bytes its buffer then has is not promised, only how many (`Unfinished`).
    pub fn abandon(self)
        ensures { Unfinished (room self.entry) self.exit.0.now }
    {}
}

// Finishing takes the encoder apart, so here each call asks for what both parts keep.
impl Progress {
    // The page's end, and zeros behind it.
    pub(crate) fn close(self, out: &mut [u8]) -> usize
        requires { Kept self out.old }
        ensures finished { Finished self.width (accepted_of self out.old) result (length out.old) out.new }
        ensures kept { Kept self out.new }
    {
        let end = self.write_end(out);
        clear_behind(out, end);
        end
    }

    // What was collected, or the run that repeats, behind what is written.
    fn write_end(&self, out: &mut [u8]) -> usize
        requires { Kept self.now out.old }
        ensures ended { Ended self.now.width (accepted_of self.now out.old) result out.new }
        ensures kept { Kept self.now out.new }
    {
        match self.phase {
            Phase::Repeating { count } => self.write_run(out, count),
            Phase::Gathering => {
                if self.gathered.is_empty() {
                    self.written
                } else if self.same.is_some() {
                    self.write_run(out, self.gathered.len())
                } else {
                    out[self.written] = header_of(1);
                    self.write_group(out, self.written + 1)
                }
            }
            Phase::Packing { header, groups } => {
                if self.gathered.is_empty() {
                    out[header] = header_of(groups);
                    self.written
                } else {
                    out[header] = header_of(groups + 1);
                    self.write_group(out, self.written)
                }
            }
        }
    }

    // The bytes of a run that repeats the current value, behind what is written, and the place behind them.
    fn write_run(&self, out: &mut [u8], count: usize) -> usize
        requires kept { Kept self.now out.old }
        requires short { count ≤ 2147483647 }
        requires fits { self.now.written + length (run_bytes self.now count) ≤ length out.old }
        ensures bytes { out.new ≡ overwrite out.old self.now.written (run_bytes self.now count) }
        ensures end { result ≡ self.now.written + length (run_bytes self.now count) }
        ensures kept { Kept self.now out.new }
    {
        let run = repeated_bytes(count, self.current(), self.width);
        write_bytes(out, self.written, run.as_slice())
    }

    // The bytes of the collected values as a packed group, and the place behind them.
    fn write_group(&self, out: &mut [u8], at: usize) -> usize
        requires kept { Kept self.now out.old }
        requires calm { repeats self.now.phase ≡ false }
        requires behind { self.now.written ≤ at }
        requires fits { at + self.now.width ≤ length out.old }
        ensures bytes { out.new ≡ overwrite out.old at (group_bytes self.now.width (padded self.now.gathered.items)) }
        ensures end { result ≡ at + self.now.width }
        ensures kept { Kept self.now out.new }
    {
        let group = group_bytes(padded_group(self.gathered.as_slice()), self.width);
        write_bytes(out, at, group.as_slice())
    }
}

// Zeros over the bytes from the page's end on.
#[tactic(auto, using(crate::proofs::Closed::cleared))]
fn clear_behind(out: &mut [u8], end: usize)
    requires { end ≤ length out.old }
    ensures { out.new ≡ take end out.old ++ replicate (length out.old - end) 0 }
{
    out[end..].fill(0);
}

// The values, filled up with zeros to a whole group.
pub(crate) fn padded_group(values: &[u64]) -> [u64; 8]
    requires { length values.now ≤ 8 }
    ensures { result ≡ padded values.now }
{
    let mut group = [0; 8];
    group[..values.len()].copy_from_slice(values);
    group
}
