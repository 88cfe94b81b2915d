//! Why a reading call gave less than was asked for.
ghost use Rattle.column.specs.Refusals.{said};
ghost use Rattle.column.specs.declared.declined.Declined.TheVariants.{Faulted, Refused};
ghost use Rattle.std.specs.Prelude.{◌≡◌};

use crate::Refusal;
use packed::Fault;
use thiserror::Error;

/// Why a reading call gave less than was asked for.
// `From` is written by hand: the contracts of calls that use `?` need what it gives.
#[derive(Clone, Copy, Debug, PartialEq, Eq, Error)]
pub enum Declined {
    /// it was refused, and changed nothing
    #[error("refused: {0}")]
    Refused(Refusal),
    /// the page is at fault behind the `count` values that came
    #[error("{fault}, behind {count} values")]
    Faulted { fault: Fault, count: usize },
}

impl Declined {
    /// The number under which the call was declined.
    pub fn number(&self) -> u8
        ensures { result ≡ (said self.now).0 }
    {
        match self {
            Declined::Refused(refusal) => refusal.number(),
            Declined::Faulted { fault, .. } => fault.number(),
        }
    }

    /// How many values came all the same.
    pub fn count(&self) -> usize
        ensures { result ≡ (said self.now).1 }
    {
        match self {
            Declined::Refused(_) => 0,
            Declined::Faulted { count, .. } => *count,
        }
    }
}

/// A fault that no value came before.
impl From<Fault> for Declined {
    ghost from_gives = { λ f r. r ≡ Faulted f 0 };

    fn from(fault: Fault) -> Declined {
        Declined::Faulted { fault, count: 0 }
    }
}

impl From<Refusal> for Declined {
    ghost from_gives = { λ e r. r ≡ Refused e };

    fn from(refusal: Refusal) -> Declined {
        Declined::Refused(refusal)
    }
}
