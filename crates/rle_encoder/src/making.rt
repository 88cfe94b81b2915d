//! Making an encoder.
ghost use Rattle.std.specs.Prelude.{◌≡◌, ◌≤◌, [], length};
ghost use Rattle.column.specs.Coding.{Checking};
ghost use Rattle.rle_encoder.specs.Encoder.{accepted, width as width_of};

use crate::progress::Progress;
use crate::{RleEncoder, RlePages, RlePass};
use column::{Meaning, Pass, Refusal};

impl<'a> RleEncoder<'a> {
    /// Whether an encoder of this width can be made over the buffer. The empty list needs no byte.
    pub fn check(out: &[u8], width: u32) -> Result<RlePass, Refusal>
        ensures { Checking ⟦<RlePass as Pass>⟧ ⟦<RlePages as Meaning>⟧ width (length out.now) result }
    {
        pass_for(width, out.len())
    }

    /// An encoder over the buffer that was checked.
    pub fn new(pass: RlePass, out: &'a mut [u8]) -> RleEncoder<'a>
        requires { length out.old ≡ pass.room }
        ensures accepted { accepted result ≡ [] }
        ensures width { width_of result ≡ pass.width }
        ensures buffer { result.out.now ≡ out.old }
        ensures lent { result.out.ghost_name ≡ out.entry.ghost_name }
    {
        RleEncoder::empty(pass.width, out)
    }

    // An encoder that has accepted nothing, apart from the public call for the same reason as the pass below. The width is a
    // plain number, as in `rle`.
    fn empty(width: usize, out: &'a mut [u8]) -> RleEncoder<'a>
        requires { width ≤ 64 }
        ensures accepted { accepted result ≡ [] }
        ensures width { width_of result ≡ width }
        ensures buffer { result.out.now ≡ out.old }
        ensures lent { result.out.ghost_name ≡ out.entry.ghost_name }
    {
        RleEncoder {
            out,
            progress: Progress::new(width),
        }
    }
}

// The pass for a width and a buffer's length, apart from the public call: a wrong argument there errs at its contract.
fn pass_for(width: u32, room: usize) -> Result<RlePass, Refusal>
    ensures { Checking ⟦<RlePass as Pass>⟧ ⟦<RlePages as Meaning>⟧ width room result }
{
    if !RlePages::has_width(width) {
        return Err(Refusal::BadWidth);
    }
    Ok(RlePass {
        width: width as usize,
        room,
    })
}
