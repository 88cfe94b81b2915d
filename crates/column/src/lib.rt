//! Columns of integers, whatever they are coded as.
#![tactic(auto)]

mod coding;
mod declined;
mod head_reading;
mod meaning;
mod pass;
mod putting;
mod whole_page;
mod working;

ghost use Rattle.column.specs.Refusals.{numbered};
ghost use Rattle.std.specs.Prelude.{◌≡◌};

pub use coding::{Coding, Decoder, Encoder};
pub use declined::Declined;
pub use head_reading::HeadReading;
pub use meaning::Meaning;
pub use packed::{Element, Fault, FaultKind, Layer};
pub use pass::Pass;
pub use putting::{PutList, put_list};
use thiserror::Error;
pub use whole_page::work_page;
pub use working::{Put, PutCall, Step, Take, TakeAnswer, TakeCall};

/// Why a call was refused. It changed nothing.
#[derive(Clone, Copy, Debug, PartialEq, Eq, Error)]
pub enum Refusal {
    #[error("the coding has no such width")]
    BadWidth = 1,
    #[error("the page would not fit the buffer")]
    Full = 2,
    #[error("the pattern has more bits than the column")]
    PatternTooWide = 3,
    #[error("the list holds 2^31 - 1 values")]
    ListTooLong = 4,
    #[error("no value repeats that could be extended")]
    NoRepeatingRun = 5,
    #[error("the element has fewer bits than the column")]
    ElementTooNarrow = 6,
    #[error("the window has no cells")]
    EmptyWindow = 17,
}

impl Refusal {
    /// The number under which a refusal is told.
    pub fn number(self) -> u8
        ensures { result ≡ numbered self }
    {
        self as u8
    }
}
