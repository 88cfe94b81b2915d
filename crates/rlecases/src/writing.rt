//! Writing a page: one call of the encoder for each word.
use crate::words::{Kind, LineError, or_not_understood, parsed};
use column::{Element, Encoder, HeadReading, PutList, Refusal, put_list};
use rle_coding::RleEncoder;
use std::alloc::Global;
use std::fmt;
use std::fmt::Write;
use std::str::SplitWhitespace;

/// What a word asks of the encoder. A value is said by its pattern.
#[derive(Debug, PartialEq, Eq, Drop)]
enum Put {
    One { kind: Kind, pattern: u64 },
    List(Vec<u64>),
    Extend(usize),
}

impl Put {
    // It makes lists, so it is no `FromStr`, which has no heap.
    fn parse(heap: Global, word: &str) -> Result<Put, LineError> {
        if word.contains(',') {
            Ok(Put::List(list(heap, word)?))
        } else if let Some((value, times)) = word.split_once('*') {
            let value = parsed(Some(value))?;
            let times: u16 = parsed(Some(times))?;
            Ok(Put::List(vec![in heap; value; usize::from(times)]?))
        } else if let Some((kind, pattern)) = word.split_once(':') {
            Ok(Put::One {
                kind: kind.parse()?,
                pattern: parsed(Some(pattern))?,
            })
        } else if let Some(count) = word.strip_prefix('x') {
            Ok(Put::Extend(parsed(Some(count))?))
        } else {
            Ok(Put::One {
                kind: Kind::U64,
                pattern: parsed(Some(word))?,
            })
        }
    }

    fn ask(self, encoder: &mut RleEncoder<'_>) -> PutAnswer {
        match self {
            Put::One { kind, pattern } => PutAnswer::One(put_one(encoder, kind, pattern)),
            Put::List(values) => PutAnswer::List(put_list(encoder, values.as_slice())),
            Put::Extend(count) => PutAnswer::One(encoder.extend_run(count)),
        }
    }
}

fn list(heap: Global, word: &str) -> Result<Vec<u64>, LineError> {
    word.split(',')
        .filter(|piece| !piece.is_empty())
        .map(|piece| parsed(Some(piece)))
        .try_collect(heap)
}

/// What the encoder answered.
#[derive(Clone, Copy, Debug, PartialEq, Eq)]
enum PutAnswer {
    One(Result<(), Refusal>),
    List(PutList),
}

impl fmt::Display for PutAnswer {
    fn fmt<W: fmt::Write>(&self, f: &mut fmt::Formatter<W>) -> fmt::Result {
        match self {
            PutAnswer::One(Ok(())) => f.write_str("ok"),
            PutAnswer::One(Err(refusal)) => write!(f, "{}", refusal.number()),
            PutAnswer::List(PutList { count, refusal }) => {
                write!(f, "{count}")?;
                match refusal {
                    Some(refusal) => write!(f, ",{}", refusal.number()),
                    None => Ok(()),
                }
            }
        }
    }
}

/// The answer to each call, and the page.
pub fn answer(heap: Global, mut words: SplitWhitespace<'_>) -> Result<String, LineError> {
    let width = parsed(words.next())?;
    let room: u16 = parsed(words.next())?;
    let mut buffer = or_not_understood(vec![in heap; 0xFF; usize::from(room)])?;
    write_page(heap, buffer.as_mut_slice(), width, words)
}

fn write_page(
    heap: Global,
    out: &mut [u8],
    width: u32,
    words: SplitWhitespace<'_>,
) -> Result<String, LineError> {
    let mut text = String::new(heap);
    match RleEncoder::check(out, width) {
        Ok(pass) => {
            let mut encoder = RleEncoder::new(pass, out);
            for word in words {
                let answer = or_not_understood(Put::parse(heap, word))?.ask(&mut encoder);
                write!(text, "{answer} ")?;
            }
            let length = encoder.finish();
            write!(
                text,
                "{}",
                Page {
                    buffer: out,
                    length
                }
            )?;
        }
        Err(refusal) => write!(text, "{}", refusal.number())?,
    }
    Ok(text)
}

fn put_one(encoder: &mut RleEncoder<'_>, kind: Kind, pattern: u64) -> Result<(), Refusal> {
    match kind {
        Kind::U8 => encoder.put(u8::from_pattern(pattern)),
        Kind::U16 => encoder.put(u16::from_pattern(pattern)),
        Kind::U32 => encoder.put(u32::from_pattern(pattern)),
        Kind::U64 => encoder.put(pattern),
        Kind::I32 => encoder.put(i32::from_pattern(pattern)),
        Kind::I64 => encoder.put(i64::from_pattern(pattern)),
        Kind::Head => encoder.put(HeadReading::from_pattern(pattern)),
    }
}

/// A finished page: the first bytes of its buffer.
// Not split where it is made: there the check does not find that the length is within the buffer, which was lent on.
#[derive(Clone, Copy, Debug, PartialEq, Eq)]
struct Page<'a> {
    buffer: &'a [u8],
    length: usize,
}

// The page, and whether all bytes behind it are 0.
impl fmt::Display for Page<'_> {
    fn fmt<W: fmt::Write>(&self, f: &mut fmt::Formatter<W>) -> fmt::Result {
        write!(f, "-> {} ", self.length)?;
        if self.length == 0 {
            f.write_str("-")?;
        }
        for byte in self.buffer.iter().take(self.length) {
            write!(f, "{byte:02X}")?;
        }
        let is_clear = self.buffer.iter().skip(self.length).all(|byte| *byte == 0);
        f.write_str(if is_clear { " clear" } else { " dirty" })
    }
}
