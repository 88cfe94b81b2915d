//! The calls of a decoder, as every coding has them: each over a method of the decoder's own that carries the proof, so that
//! a wrong call errs here, at the trait's contract.
ghost use Rattle.rle_decoder.specs.Decoder.{state_of};
ghost use Rattle.rle_decoder.specs.Small.{waiting_small};

use crate::RleDecoder;
use column::{Declined, Decoder, Element};

impl<'a> Decoder for RleDecoder<'a> {
    ghost state = { state_of };

    ghost below = { waiting_small };

    fn get<E: Element>(&mut self) -> Result<Option<E>, Declined> {
        self.take_one()
    }

    fn get_batch<E: Element>(&mut self, cells: &mut [E]) -> Result<usize, Declined> {
        self.take_values(cells)
    }

    fn skip(&mut self, count: usize) -> Result<usize, Declined> {
        self.pass_values(count)
    }
}
