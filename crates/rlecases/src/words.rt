//! The words of a line.
ghost use Rattle.std.specs.Prelude.{◌<◌, IfOk};

use std::alloc::{AllocError, Global};
use std::str::FromStr;
use thiserror::Error;

/// Why a line has no answer.
#[derive(Clone, Copy, Debug, PartialEq, Eq, Error)]
pub enum LineError {
    #[error("not understood")]
    NotUnderstood,
    #[error("no memory")]
    Memory(#[from(alloc)] AllocError),
}

/// What a word says, which has to be there.
// `bitcases` has this too, with an error of its own: the few lines are no crate.
pub fn parsed<T: FromStr + Drop>(word: Option<&str>) -> Result<T, LineError>
where
    T::Err: Drop,
{
    word.and_then(|word| word.parse().ok())
        .ok_or(LineError::NotUnderstood)
}

/// What is made of a word. Where there is no memory for it, the line is told as one that is not understood.
pub fn or_not_understood<T: Drop, E: Drop>(made: Result<T, E>) -> Result<T, LineError> {
    made.map_err(|_| LineError::NotUnderstood)
}

/// The bytes that a word says, two hexadecimal digits each, or `-` for none.
pub fn bytes(heap: Global, word: Option<&str>) -> Result<Vec<u8>, LineError> {
    match word {
        Some("-") => Ok(Vec::new(heap)),
        Some(digits) => or_not_understood(digit_pairs(heap, digits)),
        None => Err(LineError::NotUnderstood),
    }
}

fn digit_pairs(heap: Global, word: &str) -> Result<Vec<u8>, LineError> {
    let pairs = word.as_bytes().chunks_exact(2);
    if !pairs.remainder().is_empty() {
        return Err(LineError::NotUnderstood);
    }
    pairs.map(byte_of).try_collect(heap)
}

// Two digits, or a plus sign and one, as `from_str_radix` has them: a text made of each pair for it took most of a page's time.
fn byte_of(digits: &[u8]) -> Result<u8, LineError> {
    match digits {
        [b'+', low] => digit_of(*low),
        [high, low] => Ok(16 * digit_of(*high)? + digit_of(*low)?),
        _ => Err(LineError::NotUnderstood),
    }
}

fn digit_of(byte: u8) -> Result<u8, LineError>
    ensures { IfOk result (λ digit. digit < 16) }
{
    match char::from(byte).to_digit(16) {
        Some(digit) => Ok(digit as u8),
        None => Err(LineError::NotUnderstood),
    }
}

/// A type of elements.
// Reading and writing each match on it to pick the type: a trait with a generic method for both is longer, since it needs a
// struct of its own for the arguments of each.
#[derive(Clone, Copy, Debug, PartialEq, Eq)]
pub enum Kind {
    U8,
    U16,
    U32,
    U64,
    I32,
    I64,
    Head,
}

impl FromStr for Kind {
    type Err = LineError;

    fn from_str(word: &str) -> Result<Kind, LineError> {
        match word {
            "u8" => Ok(Kind::U8),
            "u16" => Ok(Kind::U16),
            "u32" => Ok(Kind::U32),
            "u64" => Ok(Kind::U64),
            "i32" => Ok(Kind::I32),
            "i64" => Ok(Kind::I64),
            "head" => Ok(Kind::Head),
            _ => Err(LineError::NotUnderstood),
        }
    }
}
