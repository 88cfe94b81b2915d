//! Reading every page of up to two bytes.
ghost use Rattle.std.specs.Prelude.{◌≡◌, ◌*◌, ◌%◌, ◌^◌, bit_xor};

use crate::reading::MARK;
use crate::words::{LineError, parsed};
use column::{Declined, Decoder};
use rle_coding::RleDecoder;
use std::alloc::Global;
use std::fmt::Write;
use std::str::SplitWhitespace;

/// A 64-bit FNV-1a digest, over numbers in place of bytes.
#[derive(Clone, Copy, Debug, PartialEq, Eq)]
struct Digest {
    hash: u64,
}

impl Digest {
    fn new() -> Digest
        ensures { result.hash ≡ 0xCBF29CE484222325 }
    {
        Digest {
            hash: 0xCBF29CE484222325,
        }
    }

    fn add(&mut self, n: u64)
        ensures { self.new.hash ≡ (bit_xor self.old.hash n * 0x100000001B3) % (2 ^ 64) }
    {
        self.hash = (self.hash ^ n).wrapping_mul(0x100000001B3);
    }

    fn add_page(&mut self, page: &[u8], width: u32) {
        match RleDecoder::open(page, width, 0) {
            Ok(decoder) => self.add_calls(decoder),
            Err(declined) => self.add_declined(declined),
        }
    }

    fn add_calls(&mut self, mut decoder: RleDecoder<'_>) {
        let mut cells = [MARK; 16];
        let taken = decoder.get_batch(&mut cells);
        self.add_count(taken);
        for cell in cells {
            self.add(cell);
        }
        self.add_count(decoder.skip(usize::MAX));
        match decoder.get::<u64>() {
            Ok(Some(value)) => self.add(value),
            Ok(None) => self.add(0),
            Err(declined) => self.add_declined(declined),
        }
    }

    fn add_count(&mut self, answer: Result<usize, Declined>) {
        match answer {
            Ok(count) => self.add(count as u64),
            Err(declined) => self.add_declined(declined),
        }
    }

    fn add_declined(&mut self, declined: Declined) {
        self.add(declined.number() as u64);
        self.add(declined.count() as u64);
        if let Declined::Faulted { fault, .. } = declined {
            self.add(fault.place as u64);
        }
    }
}

/// The digest of the empty page, and for each first byte that of its pages of one and two bytes.
pub fn answer(heap: Global, mut words: SplitWhitespace<'_>) -> Result<String, LineError> {
    let width = parsed(words.next())?;
    let mut empty = Digest::new();
    empty.add_page(&[], width);
    let mut text = format!(in heap; "- {}", empty.hash)?;
    for first in 0..=255u8 {
        let digest = digest_of(first, width);
        write!(text, "\n{first:02X} {digest}")?;
    }
    Ok(text)
}

// The digest of the pages that begin with a byte.
fn digest_of(first: u8, width: u32) -> u64 {
    let mut digest = Digest::new();
    digest.add_page(&[first], width);
    for second in 0..=255u8 {
        digest.add_page(&[first, second], width);
    }
    digest.hash
}
