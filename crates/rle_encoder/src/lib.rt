//! The encoder of RLE/bit-packed hybrid pages.
#![tactic(auto)]

mod adding;
mod admitting;
mod coding;
mod finishing;
mod making;
mod meaning;
mod phase;
mod progress;
mod storing;

ghost use Rattle.std.specs.Prelude.{◌≤◌};
ghost use Rattle.rle_encoder.specs.Encoding.{Kept};

pub use meaning::RlePages;
pub use phase::Phase;
use progress::Progress;

/// A width and a buffer's length that were checked: only `RleEncoder::check` makes one, and `RleEncoder::new` uses it up.
#[derive(Debug, PartialEq, Eq, Drop)]
pub struct RlePass {
    width: usize,
    room: usize,
    ghost narrow: { width ≤ 64 },
}

/// Writes a hybrid page into a lent buffer, value by value.
///
/// What is written and what is held tell the list of the accepted values (`Kept`).
#[derive(Debug, Drop)]
pub struct RleEncoder<'a> {
    out: &'a mut [u8],
    progress: Progress,
    ghost kept: { Kept progress out.now },
}
