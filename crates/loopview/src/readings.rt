//! The readings of a detector loop, and how they are read from text.
ghost use Rattle.std.specs.Prelude.{◌≡◌, ◌<◌, ◌≤◌, true, length, ◌≤ℤ◌, is_ok, IfOk, IfErr, Some, vec_len};
ghost use Rattle.std.specs.Str.Parse.{IsNumeral, without_leading_sign, signed_digits_value};
ghost use Rattle.loopview.specs.declared.readings.ParseError.TheVariants.{Memory};
ghost use Rattle.loopview.specs.Fields.{field_name, least, greatest, Blames, Within};

use std::alloc::{AllocError, AllocFailed, Global};
use std::fmt;
use std::fmt::InlineText;
use std::num::IntErrorKind;
use thiserror::Error;

/// What one device of the loop answered when the panel polled it.
#[derive(Clone, Copy, Debug, PartialEq, Eq)]
pub struct Reading {
    address: u8,
    value: u8,
    tick: i64,
    ghost on_loop: { address < 128 },
}

impl Reading {
    /// The reading of a device whose address the caller has shown to be on the loop.
    pub fn new(address: u8, value: u8, tick: i64) -> Reading
        requires { address < 128 }
        ensures address { result.address ≡ address }
        ensures value { result.value ≡ value }
        ensures tick { result.tick ≡ tick }
    {
        Reading {
            address,
            value,
            tick,
        }
    }

    /// The device's address on the loop, 0 to 127.
    pub fn address(&self) -> u8
        ensures value { result ≡ self.now.address }
        ensures bound { result < 128 }
    {
        self.address
    }

    /// The analogue value that the device sent.
    pub fn value(&self) -> u8
        ensures { result ≡ self.now.value }
    {
        self.value
    }

    /// When the panel had the answer, in milliseconds.
    pub fn tick(&self) -> i64
        ensures { result ≡ self.now.tick }
    {
        self.tick
    }
}

/// A field of a line of readings.
#[derive(Clone, Copy, Debug, PartialEq, Eq)]
pub enum Field {
    Address,
    Value,
    Tick,
}

impl Field {
    /// The least number that the field may hold.
    pub fn lowest(self) -> i64
        ensures { result ≡ least self }
    {
        match self {
            Field::Address | Field::Value => 0,
            Field::Tick => i64::MIN,
        }
    }

    /// The greatest number that the field may hold.
    pub fn highest(self) -> i64
        ensures { result ≡ greatest self }
    {
        match self {
            Field::Address => 127,
            Field::Value => 255,
            Field::Tick => i64::MAX,
        }
    }
}

impl fmt::Display for Field {
    ghost output = { λ field. Some (field_name field) };

    fn fmt<W: fmt::Write>(&self, f: &mut fmt::Formatter<W>) -> fmt::Result {
        let name = match self {
            Field::Address => "address",
            Field::Value => "value",
            Field::Tick => "tick",
        };
        f.write_str(name)
    }
}

/// The start of a field's text, for a message. It is a copy without allocation, so a refusal never fails for want of memory.
// `InlineText` itself has neither `Display` nor `Debug`, nor `==`, so the refusals that hold one have none either.
#[derive(Clone, Copy)]
pub struct Excerpt(InlineText<32>);

impl Excerpt {
    /// The first 32 bytes of `text`, whole characters only; what is cut short ends in dots.
    fn of(text: &str) -> Excerpt {
        Excerpt(InlineText::of(text))
    }
}

impl fmt::Display for Excerpt {
    fn fmt<W: fmt::Write>(&self, f: &mut fmt::Formatter<W>) -> fmt::Result {
        f.write_str(self.0.as_str())
    }
}

impl fmt::Debug for Excerpt {
    fn fmt<W: fmt::Write>(&self, f: &mut fmt::Formatter<W>) -> fmt::Result {
        let text = self.0.as_str();
        write!(f, "{text:?}")
    }
}

/// Why a line is no reading.
#[derive(Clone, Copy, Debug, Error)]
pub enum Reason {
    #[error("expected address,value,tick: too few fields")]
    TooFewFields,
    #[error("expected address,value,tick: too many fields")]
    TooManyFields,
    #[error("{text:?} is no number for {field}")]
    NoNumber { field: Field, text: Excerpt },
    #[error("{field} {text} is below {lowest}", lowest = .field.lowest())]
    TooLow { field: Field, text: Excerpt },
    #[error("{field} {text} is above {highest}", highest = .field.highest())]
    TooHigh { field: Field, text: Excerpt },
}

/// The number that `digits` spells, where it lies in the field's range.
fn number(field: Field, digits: &str) -> Result<i64, Reason>
    ensures range { IfOk result (λ n. (least field ≤ℤ n) × (n ≤ℤ greatest field)) }
    ensures value { IfOk result (λ n. n ≡ signed_digits_value 10 digits.now) }
    ensures blamed { IfErr result (Blames field) }
    ensures accepts { IsNumeral 10 (without_leading_sign digits.now)
        → least field ≤ℤ signed_digits_value 10 digits.now
        → signed_digits_value 10 digits.now ≤ℤ greatest field
        → is_ok result ≡ true }
{
    // The excerpt is made where a number is refused: made of each number that is read, it would be a part of every line's time.
    match digits.parse::<i64>() {
        Ok(n) if n < field.lowest() => Err(Reason::TooLow {
            field,
            text: Excerpt::of(digits),
        }),
        Ok(n) if n > field.highest() => Err(Reason::TooHigh {
            field,
            text: Excerpt::of(digits),
        }),
        Ok(n) => Ok(n),
        Err(fault) => {
            let text = Excerpt::of(digits);
            match fault.kind() {
                IntErrorKind::PosOverflow => Err(Reason::TooHigh { field, text }),
                IntErrorKind::NegOverflow => Err(Reason::TooLow { field, text }),
                IntErrorKind::Empty | IntErrorKind::InvalidDigit | IntErrorKind::Zero => {
                    Err(Reason::NoNumber { field, text })
                }
            }
        }
    }
}

/// The reading of one line, which has been trimmed.
fn parse_line(line: &str) -> Result<Reading, Reason> {
    let mut fields = line.split(',');
    let (Some(address), Some(value), Some(tick)) = (fields.next(), fields.next(), fields.next())
    else {
        return Err(Reason::TooFewFields);
    };
    if fields.next().is_some() {
        return Err(Reason::TooManyFields);
    }
    let address = number(Field::Address, address.trim())?;
    let value = number(Field::Value, value.trim())?;
    let tick = number(Field::Tick, tick.trim())?;
    Ok(Reading::new(address as u8, value as u8, tick))
}

/// Why there are no readings.
// `From` is written by hand, since the contract of `parse` needs what it gives.
#[derive(Clone, Copy, Debug, Error)]
pub enum ParseError {
    /// There was no memory for the readings.
    #[error("no memory for the readings")]
    Memory,
    /// The line of this number, counted from 1, is no reading.
    #[error("line {line}: {reason}")]
    BadLine { line: usize, reason: Reason },
}

impl From<AllocError> for ParseError {
    ghost from_gives = { λ _ r. r ≡ Memory };

    fn from(_e: AllocError) -> Self {
        ParseError::Memory
    }
}

impl<T: Drop> From<AllocFailed<T>> for ParseError {
    ghost from_gives = { λ _ r. r ≡ Memory };

    fn from(_e: AllocFailed<T>) -> Self {
        ParseError::Memory
    }
}

// It makes a list, so it is no `FromStr`, which has no heap.
/// The readings of `text`, one to a line. Blank lines and comments, which begin with `#`, are skipped.
pub fn parse(heap: Global, text: &str) -> Result<Vec<Reading>, ParseError>
    ensures few { IfOk result (λ v. vec_len v ≤ length text.now) }
    ensures line { IfErr result (Within (length text.now)) }
{
    let mut readings = Vec::new(heap);
    for (index, line) in text.lines().enumerate() {
        let line = line.trim();
        if line.is_empty() || line.starts_with('#') {
            continue;
        }
        let number = index + 1;
        let reading = parse_line(line).map_err(|reason| ParseError::BadLine {
            line: number,
            reason,
        })?;
        readings.push(reading)?;
    }
    Ok(readings)
}
