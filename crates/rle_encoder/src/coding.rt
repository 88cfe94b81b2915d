//! The encoder as one of the column codings.
ghost use Rattle.std.proofs.Common.{le→leb};
ghost use Rattle.rle_encoder.specs.Encoder.{state_of};
ghost use Rattle.rle_encoder.specs.Keeping.{kept-column};

use crate::meaning::RlePages;
use crate::{RleEncoder, RlePass};
use column::{Element, Encoder, Pass, Refusal};

impl Pass for RlePass {
    ghost width = { λ p. p.width };

    ghost room = { λ p. p.room };
}

impl<'a> Encoder<'a> for RleEncoder<'a> {
    type Code = RlePages;

    ghost state = { state_of };

    fn put<E: Element>(&mut self, v: E) -> Result<(), Refusal> {
        RleEncoder::put(self, v)
    }

    // The encoder's own `finish` says what its lender sees in the buffer. Here the buffer goes back: of what a type parameter
    // borrowed nothing is known once it is used up.
    fn finish(self) -> (usize, &'a mut [u8]) {
        let RleEncoder { out, progress } = self;
        let end = progress.close(out);
        (end, out)
    }

    ghost holds = { λ e. record {
      column = kept-column e.kept;
      allowed = le→leb e.progress.width 64 e.kept.narrow;
      fits = e.kept.fits;
    } };
}
