//! What a coding of columns is: its encoder, its decoder, and how both are made.
ghost use Rattle.std.specs.Prelude.{◌≡◌, ◌^◌, ◌<◌, length};
ghost use Rattle.column.specs.Coding.{Checking, Holds, page_of};
ghost use Rattle.column.specs.Putting.{after_put, answered, finished, unput};
ghost use Rattle.column.specs.States.{DecoderState, EncoderState, fresh};
ghost use Rattle.column.specs.Taking.{Opening, after_taking, cells_with, one_of, taking, taking_from};
ghost use Rattle.std.specs.List.{AllByRecursion};

use crate::Refusal;
use crate::declined::Declined;
use crate::meaning::Meaning;
use crate::pass::Pass;
use packed::Element;

/// Writes a column into a lent buffer. It means the list of the patterns that it accepted.
pub trait Encoder<'a> {
    type Code: Meaning;

    ghost state: { Self → EncoderState };

    /// Adds a value's pattern at the list's end, unless it is refused.
    fn put<E: Element>(&mut self, v: E) -> Result<(), Refusal>
        ensures answer { result ≡ answered (unput Self.Code.need (state self.old) (E.pattern v)) }
        ensures state { state self.new ≡ after_put Self.Code.need (state self.old) (E.pattern v) };

    /// Writes the page to the buffer's front and zeros behind it, and answers the page's length and the buffer.
    fn finish(self) -> (usize, &'a mut [u8])
        ensures length { result.0 ≡ length (page_of Self.Code.Meaning (state self)) }
        ensures bytes { result.1.now
            ≡ finished (page_of Self.Code.Meaning (state self)) (state self).room };

    /// The list is always a column of a width that the coding has, and fits the buffer.
    ghost holds: { (e : Self) → Holds Self.Code.Meaning (state e) };
}

/// Reads a column from a borrowed page. It means the patterns that wait, and how they end.
pub trait Decoder {
    ghost state: { Self → DecoderState };

    /// Takes one value.
    fn get<E: Element>(&mut self) -> Result<Option<E>, Declined>
        ensures answer { result ≡ one_of E.Element (taking_from E.Element 1 (state self.old)) }
        ensures state { state self.new
            ≡ after_taking (taking_from E.Element 1 (state self.old)) (state self.old) };

    /// Takes as many values as there are cells, into the first of them; the others stay.
    fn get_batch<E: Element>(&mut self, cells: &mut [E]) -> Result<usize, Declined>
        ensures answer { result ≡ (taking_from E.Element (length cells.old) (state self.old)).answer }
        ensures cells { cells.new
            ≡ cells_with E.Element cells.old 0 (taking_from E.Element (length cells.old) (state self.old)) }
        ensures state { state self.new
            ≡ after_taking (taking_from E.Element (length cells.old) (state self.old)) (state self.old) };

    /// Takes `count` values and drops them.
    fn skip(&mut self, count: usize) -> Result<usize, Declined>
        ensures answer { result ≡ (taking count (state self.old).waiting).answer }
        ensures state { state self.new
            ≡ after_taking (taking count (state self.old).waiting) (state self.old) };

    /// Each pattern that waits has at most 64 bits, and so has each that a call takes.
    ghost below: { (d : Self) → AllByRecursion (λ p. p < 2 ^ 64) (state d).waiting.values };
}

/// A coding: how its encoders and decoders are made.
pub trait Coding<'a> {
    type Code: Meaning;

    type Permit: Pass + Drop;

    type Enc: Encoder<'a, Code = Self::Code> + Drop;

    type Dec: Decoder + Drop;

    /// Whether an encoder of this width can be made over the buffer.
    fn check(out: &[u8], width: u32) -> Result<Self::Permit, Refusal>
        ensures { Checking Self.Permit.Pass Self.Code.Meaning width (length out.now) result };

    /// An encoder over the buffer that was checked.
    fn make(pass: Self::Permit, out: &'a mut [u8]) -> Self::Enc
        requires { length out.old ≡ Self.Permit.room pass }
        ensures { Self.Enc.state result ≡ fresh (Self.Permit.width pass) (length out.old) };

    /// A decoder of a page that holds `count` values.
    fn open(page: &'a [u8], width: u32, count: usize) -> Result<Self::Dec, Declined>
        ensures { Opening Self.Dec.state (Self.Code.allows width) width page.now (Self.Code.reads width count page.now) result };
}
