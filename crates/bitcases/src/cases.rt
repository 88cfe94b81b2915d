//! The cases of the table, and how a line says one.
ghost use Rattle.std.specs.Prelude.{◌<◌, ◌≤◌};

use std::alloc::{AllocError, Global};
use std::str::{FromStr, SplitWhitespace};
use thiserror::Error;

/// How many values or cells a line may have.
pub const MOST_VALUES: usize = 128;

/// Why a line has no answer.
#[derive(Clone, Copy, Debug, PartialEq, Eq, Error)]
pub enum Refusal {
    #[error("no memory")]
    Memory(#[from(alloc)] AllocError),
    #[error("unknown command")]
    UnknownCommand,
    #[error("unknown cell type")]
    UnknownCell,
    #[error("bad number")]
    BadNumber,
    #[error("width above 64")]
    WidthTooLarge,
    #[error("lead above 7")]
    LeadTooLarge,
    #[error("value not below 2^width")]
    ValueTooLarge,
    #[error("too many values")]
    TooManyValues,
    #[error("place behind the data")]
    PlaceBehindData,
}

/// Values of `width` bits each, one behind the other from the bit `lead` on.
#[derive(Clone, Copy, Debug, PartialEq, Eq)]
pub struct Layout {
    pub width: usize,
    pub lead: usize,
    ghost narrow: { width ≤ 64 },
    ghost short: { lead < 8 },
}

impl Layout {
    // It takes two words of a line, so it is no `FromStr`, which has one text.
    fn parse(words: &mut SplitWhitespace<'_>) -> Result<Layout, Refusal> {
        let width: usize = number(words.next())?;
        let lead: usize = number(words.next())?;
        if width > 64 {
            return Err(Refusal::WidthTooLarge);
        }
        if lead > 7 {
            return Err(Refusal::LeadTooLarge);
        }
        Ok(Layout { width, lead })
    }
}

/// The type of the cells that a batch is read into.
// `rlecases` has such a type too, with three more variants: the few lines that both have are no crate of their own.
#[derive(Clone, Copy, Debug, PartialEq, Eq)]
pub enum Cell {
    U8,
    U16,
    U32,
    U64,
}

impl FromStr for Cell {
    type Err = Refusal;

    fn from_str(word: &str) -> Result<Cell, Refusal> {
        match word {
            "u8" => Ok(Cell::U8),
            "u16" => Ok(Cell::U16),
            "u32" => Ok(Cell::U32),
            "u64" => Ok(Cell::U64),
            _ => Err(Refusal::UnknownCell),
        }
    }
}

/// Values to pack.
#[derive(Debug, PartialEq, Eq, Drop)]
pub struct Packing {
    pub layout: Layout,
    pub values: Vec<u64>,
}

impl Packing {
    // As of a whole case: it makes a list.
    fn parse(heap: Global, mut words: SplitWhitespace<'_>) -> Result<Packing, Refusal> {
        let layout = Layout::parse(&mut words)?;
        let values = words.map(|word| number(Some(word))).try_collect(heap)?;
        Ok(Packing { layout, values })
    }
}

/// A page to read a batch of values from.
#[derive(Debug, PartialEq, Eq, Drop)]
pub struct Batch {
    pub layout: Layout,
    pub cell: Cell,
    pub cells: usize,
    pub page: Vec<u8>,
}

impl Batch {
    // As of a whole case: it makes a list.
    fn parse(heap: Global, mut words: SplitWhitespace<'_>) -> Result<Batch, Refusal> {
        let layout = Layout::parse(&mut words)?;
        let cell = words.next().ok_or(Refusal::UnknownCell)?.parse()?;
        let cells = number(words.next())?;
        let page = parse_bytes(heap, words)?;
        Ok(Batch {
            layout,
            cell,
            cells,
            page,
        })
    }
}

/// What a line asks for.
#[derive(Debug, PartialEq, Eq, Drop)]
pub enum Case {
    Vlq(u64),
    ReadVlq { place: usize, page: Vec<u8> },
    Zigzag(i64),
    Pack(Packing),
    Batch(Batch),
}

impl Case {
    /// The case of a line: a command, and its words behind it. It makes lists, so it is no `FromStr`, which has no heap.
    pub fn parse(heap: Global, line: &str) -> Result<Case, Refusal> {
        let mut words = line.split_whitespace();
        match words.next() {
            Some("vlq") => Ok(Case::Vlq(number(words.next())?)),
            Some("readvlq") => Ok(Case::ReadVlq {
                place: number(words.next())?,
                page: parse_bytes(heap, words)?,
            }),
            Some("zigzag") => Ok(Case::Zigzag(number(words.next())?)),
            Some("pack") => Ok(Case::Pack(Packing::parse(heap, words)?)),
            Some("batch") => Ok(Case::Batch(Batch::parse(heap, words)?)),
            _ => Err(Refusal::UnknownCommand),
        }
    }
}

// `rlecases` has this too, with an error of its own: the few lines are no crate.
fn number<N: FromStr + Drop>(word: Option<&str>) -> Result<N, Refusal>
where
    N::Err: Drop,
{
    word.and_then(|word| word.parse().ok())
        .ok_or(Refusal::BadNumber)
}

// Bytes are in hexadecimal.
fn parse_bytes(heap: Global, words: SplitWhitespace<'_>) -> Result<Vec<u8>, Refusal> {
    words
        .map(|word| u8::from_str_radix(word, 16).map_err(|_| Refusal::BadNumber))
        .try_collect(heap)
}
