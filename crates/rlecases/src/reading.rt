//! Reading a page: one call of the decoder for each word.
use crate::words::{Kind, LineError, bytes, parsed};
use column::{Declined, Decoder, Element, HeadReading};
use rle_coding::RleDecoder;
use std::alloc::{AllocError, Global};
use std::fmt;
use std::fmt::Write;
use std::str::{FromStr, SplitWhitespace};

/// The pattern of the cells before a batch.
pub const MARK: u64 = 165;

/// A call of a decoder.
#[derive(Clone, Copy, Debug, PartialEq, Eq)]
enum Call {
    Get,
    Batch(u16),
    Skip(usize),
}

impl FromStr for Call {
    type Err = LineError;

    fn from_str(word: &str) -> Result<Call, LineError> {
        if word == "g" {
            Ok(Call::Get)
        } else if let Some(count) = word.strip_prefix('b') {
            Ok(Call::Batch(parsed(Some(count))?))
        } else {
            Ok(Call::Skip(parsed(word.strip_prefix('s'))?))
        }
    }
}

/// What a call answered. A value stands here as its pattern, and the cells of a batch are said behind it.
#[derive(Clone, Copy, Debug, PartialEq, Eq)]
enum Taken {
    Got(Result<Option<u64>, Declined>),
    Filled(Result<usize, Declined>),
    Skipped(Result<usize, Declined>),
}

impl fmt::Display for Taken {
    fn fmt<W: fmt::Write>(&self, f: &mut fmt::Formatter<W>) -> fmt::Result {
        match self {
            Taken::Got(Ok(Some(value))) => write!(f, "v {value}"),
            Taken::Got(Ok(None)) => f.write_str("none"),
            Taken::Filled(Ok(count)) => write!(f, "n {count}"),
            Taken::Skipped(Ok(count)) => write!(f, "s {count}"),
            Taken::Got(Err(declined))
            | Taken::Filled(Err(declined))
            | Taken::Skipped(Err(declined)) => { Said(*declined).fmt(f) }
        }
    }
}

/// How a declined call is said.
#[derive(Clone, Copy, Debug, PartialEq, Eq)]
struct Said(Declined);

impl fmt::Display for Said {
    fn fmt<W: fmt::Write>(&self, f: &mut fmt::Formatter<W>) -> fmt::Result {
        match self.0 {
            Declined::Refused(refusal) => write!(f, "refused {}", refusal.number()),
            Declined::Faulted { fault, count } => {
                write!(f, "{fault} layer {} after {count}", fault.layer())
            }
        }
    }
}

/// The answer to each call, or why the page does not open.
pub fn answer(heap: Global, mut words: SplitWhitespace<'_>) -> Result<String, LineError> {
    let width = parsed(words.next())?;
    let kind = parsed(words.next())?;
    let page = bytes(heap, words.next())?;
    match RleDecoder::open(page.as_slice(), width, 0) {
        Ok(decoder) => {
            let reader = PageReader {
                heap,
                decoder,
                kind,
            };
            reader.answers(words)
        }
        Err(declined) => Ok(format!(in heap; "{}", Said(declined))?),
    }
}

/// A decoder, and the type of the elements that it reads.
#[derive(Debug, Drop)]
struct PageReader<'a> {
    heap: Global,
    decoder: RleDecoder<'a>,
    kind: Kind,
}

impl PageReader<'_> {
    // A word names the type from there on, or a call.
    fn answers(mut self, words: SplitWhitespace<'_>) -> Result<String, LineError> {
        let mut text = String::new(self.heap);
        for word in words {
            if let Ok(kind) = word.parse() {
                self.kind = kind;
                continue;
            }
            let call = word.parse()?;
            if !text.is_empty() {
                text.push_str("; ")?;
            }
            self.take(call, &mut text)?;
        }
        Ok(text)
    }

    // Makes a call, and says behind the text what it answered.
    fn take(&mut self, call: Call, text: &mut String) -> Result<(), AllocError> {
        match self.kind {
            Kind::U8 => self.take_as::<u8>(call, text),
            Kind::U16 => self.take_as::<u16>(call, text),
            Kind::U32 => self.take_as::<u32>(call, text),
            Kind::U64 => self.take_as::<u64>(call, text),
            Kind::I32 => self.take_as::<i32>(call, text),
            Kind::I64 => self.take_as::<i64>(call, text),
            Kind::Head => self.take_as::<HeadReading>(call, text),
        }
    }

    fn take_as<E: Element + Clone>(
        &mut self,
        call: Call,
        text: &mut String,
    ) -> Result<(), AllocError> {
        match call {
            Call::Get => write!(text, "{}", Taken::Got(self.get::<E>())),
            Call::Batch(count) => self.fill::<E>(usize::from(count), text),
            Call::Skip(count) => write!(text, "{}", Taken::Skipped(self.decoder.skip(count))),
        }
    }

    fn get<E: Element>(&mut self) -> Result<Option<u64>, Declined> {
        let value = self.decoder.get::<E>()?;
        Ok(value.map(|value| value.to_pattern()))
    }

    // The cells are said as they are: a list of their patterns besides would ask for up to eight times their memory. Where
    // there is none for the cells, the call is not made.
    fn fill<E: Element + Clone>(
        &mut self,
        count: usize,
        text: &mut String,
    ) -> Result<(), AllocError> {
        let Ok(mut cells) = vec![in self.heap; E::from_pattern(MARK); count] else {
            return text.push_str("no memory");
        };
        let taken = Taken::Filled(self.decoder.get_batch(cells.as_mut_slice()));
        write!(text, "{taken}:")?;
        for cell in &cells {
            text.push_str(" ")?;
            write!(text, "{}", cell.to_pattern())?;
        }
        Ok(())
    }
}
