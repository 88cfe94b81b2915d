//! A reader of packed values, whole bytes and variable-length numbers over a borrowed page.
//!
//! Widths and counts of bytes stay plain numbers with a bound: a type for each would be taken apart again in every call. What
//! a call asks besides (`HasValues`) goes by what it reads, and is no fact that a reader keeps.
#![tactic(auto)]

ghost use Rattle.std.specs.Prelude.{◌≡◌, ◌+◌, ◌*◌, ◌%◌, ◌<◌, ◌≤◌, length, is_some, if◌then◌else◌};
ghost use Rattle.packed.specs.Bytes.{bits_at, overwrite};
ghost use Rattle.packed.specs.Vlq.{number_of, read_vlq, signed_of, taken_of};

use packed::{Element, Fault, bits_at, from_zigzag, read_vlq, unpack};

/// Reads from a page, the lowest bit of each byte first.
#[derive(Clone, Copy, Debug, PartialEq, Eq)]
pub struct BitReader<'a> {
    buffer: &'a [u8],
    byte_offset: usize,
    bit_offset: usize,
    pub ghost in_byte: { bit_offset < 8 },
    pub ghost in_page: { 8 * byte_offset + bit_offset ≤ 8 * length buffer.now },
}

impl<'a> BitReader<'a> {
    ghost use Rattle.bit_reader.specs.Reader.{Counted, HasValues, Moved, next_byte, next_cells, next_vlq, page, position, read_one};

    /// A reader at the page's first bit.
    pub fn new(buffer: &'a [u8]) -> BitReader<'a>
        ensures page { page result ≡ buffer.now }
        ensures start { position result ≡ 0 }
    {
        BitReader {
            buffer,
            byte_offset: 0,
            bit_offset: 0,
        }
    }

    /// A reader at a bit of the page, counted from its first. A page may have more bits than a `usize` counts.
    pub fn at(buffer: &'a [u8], bit: u128) -> BitReader<'a>
        requires { bit ≤ 8 * length buffer.now }
        ensures page { page result ≡ buffer.now }
        ensures start { position result ≡ bit }
    {
        BitReader {
            buffer,
            byte_offset: (bit / 8) as usize,
            bit_offset: (bit % 8) as usize,
        }
    }

    /// The next byte that no bit was read of.
    pub fn get_byte_offset(&self) -> usize
        ensures { result ≡ next_byte self.now }
    {
        if self.bit_offset == 0 {
            self.byte_offset
        } else {
            self.byte_offset + 1
        }
    }

    /// The next value, or none where fewer than `num_bits` bits are left.
    pub fn get_value(&mut self, num_bits: usize) -> Option<u64>
        requires { num_bits ≤ 64 }
        ensures value { result ≡ read_one (page self.old) (position self.old) num_bits }
        ensures moved { Moved self.old self.new (position self.old + (if is_some result then num_bits else 0)) }
    {
        if self.readable(1, num_bits) == 0 {
            return None;
        }
        Some(self.take_value(num_bits))
    }

    /// Passes over the next `num_values` values, or those that are left, and answers how many they were.
    pub fn skip(&mut self, num_values: usize, num_bits: usize) -> usize
        requires { num_bits ≤ 64 }
        ensures count { Counted (page self.old) (position self.old) num_bits num_values result }
        ensures moved { Moved self.old self.new (position self.old + result * num_bits) }
    {
        let count = self.readable(num_values, num_bits);
        self.advance(count, num_bits);
        count
    }

    /// The next values, as many as `batch` has cells or are left, and how many they were. The other cells stay.
    #[tactic(auto, using(crate::proofs::Reading::cells_in_front))]
    pub fn get_batch<T: Element>(&mut self, batch: &mut [T], num_bits: usize) -> usize
        requires { num_bits ≤ 64 }
        ensures count { Counted (page self.old) (position self.old) num_bits (length batch.old) result }
        ensures cells { batch.new ≡ overwrite batch.old 0 (next_cells T.Element.made self.old num_bits result) }
        ensures moved { Moved self.old self.new (position self.old + result * num_bits) }
    {
        let count = self.readable(batch.len(), num_bits);
        self.fill_batch(&mut batch[..count], num_bits);
        count
    }

    /// The next values, as many as there are cells, which are there.
    #[tactic(auto, using(crate::proofs::Reading::cells_joined, crate::proofs::Reading::bits_joined))]
    pub fn fill_batch<T: Element>(&mut self, cells: &mut [T], num_bits: usize)
        requires width { num_bits ≤ 64 }
        requires room { HasValues self.old num_bits (length cells.old) }
        ensures cells { cells.new ≡ next_cells T.Element.made self.old num_bits (length cells.old) }
        ensures moved { Moved self.old self.new (position self.old + length cells.old * num_bits) }
    {
        let head_len = self.values_to_byte(cells.len(), num_bits);
        let (head, tail) = cells.split_at_mut(head_len);
        self.fill_singles(head, num_bits);
        self.fill_tail(tail, num_bits);
    }

    /// The next `num_bytes` whole bytes, the first byte lowest, or none where fewer are left. Bits before the next whole
    /// byte are passed over.
    pub fn get_aligned(&mut self, num_bytes: usize) -> Option<u64>
        requires { num_bytes ≤ 8 }
        ensures value { result ≡ read_one (page self.old) (8 * next_byte self.old) (8 * num_bytes) }
        ensures moved { Moved self.old self.new (8 * next_byte self.old + (if is_some result then 8 * num_bytes else 0)) }
    {
        self.align();
        self.get_value(8 * num_bytes)
    }

    /// The number that begins at the next whole byte. A fault leaves the reader at that byte.
    pub fn get_vlq_int(&mut self) -> Result<u64, Fault>
        ensures value { result ≡ number_of (next_vlq self.old) }
        ensures moved { Moved self.old self.new (8 * (next_byte self.old + taken_of (next_vlq self.old))) }
    {
        self.align();
        self.take_vlq()
    }

    /// The signed number whose zigzag begins at the next whole byte.
    pub fn get_zigzag_vlq_int(&mut self) -> Result<i64, Fault>
        ensures value { result ≡ signed_of (number_of (next_vlq self.old)) }
        ensures moved { Moved self.old self.new (8 * (next_byte self.old + taken_of (next_vlq self.old))) }
    {
        let value = self.get_vlq_int()?;
        Ok(from_zigzag(value))
    }

    // Goes on to the next whole byte.
    fn align(&mut self)
        ensures moved { Moved self.old self.new (8 * next_byte self.old) }
        ensures byte { self.new.byte_offset ≡ next_byte self.old }
        ensures bit { self.new.bit_offset ≡ 0 }
    {
        self.byte_offset = self.get_byte_offset();
        self.bit_offset = 0;
    }

    // How many of `num_values` values are left.
    fn readable(&self, num_values: usize, num_bits: usize) -> usize
        requires { num_bits ≤ 64 }
        ensures { Counted (page self.now) (position self.now) num_bits num_values result }
    {
        let left = (self.buffer.len() - self.byte_offset) as u128 * 8 - self.bit_offset as u128;
        if num_values as u128 * num_bits as u128 <= left {
            num_values
        } else {
            (left / num_bits as u128) as usize
        }
    }

    // Goes on past values that are there.
    fn advance(&mut self, num_values: usize, num_bits: usize)
        requires width { num_bits ≤ 64 }
        requires room { HasValues self.old num_bits num_values }
        ensures { Moved self.old self.new (position self.old + num_values * num_bits) }
    {
        let bits = self.bit_offset as u128 + num_values as u128 * num_bits as u128;
        self.byte_offset += (bits / 8) as usize;
        self.bit_offset = (bits % 8) as usize;
    }

    // The number that begins at this whole byte.
    fn take_vlq(&mut self) -> Result<u64, Fault>
        requires { self.old.bit_offset ≡ 0 }
        ensures value { result ≡ number_of (read_vlq (page self.old) self.old.byte_offset) }
        ensures moved { Moved self.old self.new (8 * (self.old.byte_offset + taken_of (read_vlq (page self.old) self.old.byte_offset))) }
    {
        let at = self.byte_offset;
        let (value, taken) = read_vlq(self.buffer, at)?;
        self.byte_offset = at + taken;
        Ok(value)
    }

    // Takes a value that is there.
    fn take_value(&mut self, num_bits: usize) -> u64
        requires width { num_bits ≤ 64 }
        requires room { HasValues self.old num_bits 1 }
        ensures value { result ≡ bits_at (page self.old) (position self.old) num_bits }
        ensures moved { Moved self.old self.new (position self.old + num_bits) }
    {
        let value = bits_at(self.buffer, self.byte_offset, self.bit_offset, num_bits);
        self.advance(1, num_bits);
        value
    }

    // How many of `count` values end at the next whole byte: all, if none of the first seven does.
    fn values_to_byte(&self, count: usize, num_bits: usize) -> usize
        requires { num_bits ≤ 64 }
        ensures bound { result ≤ count }
        ensures whole { result < count → (self.now.bit_offset + result * num_bits) % 8 ≡ 0 }
    {
        (0..count.min(8))
            .find(|k| (self.bit_offset + *k * num_bits) % 8 == 0)
            .unwrap_or(count)
    }

    // One by one.
    fn fill_singles<T: Element>(&mut self, cells: &mut [T], num_bits: usize)
        requires width { num_bits ≤ 64 }
        requires room { HasValues self.old num_bits (length cells.old) }
        ensures cells { cells.new ≡ next_cells T.Element.made self.old num_bits (length cells.old) }
        ensures moved { Moved self.old self.new (position self.old + length cells.old * num_bits) }
    {
        for cell in cells.iter_mut() {
            *cell = T::from_pattern(self.take_value(num_bits));
        }
    }

    // From a whole byte on, if there are any: groups of eight by the kernel, then those that are left.
    #[tactic(auto, using(crate::proofs::Reading::cells_joined, crate::proofs::Reading::bits_joined))]
    fn fill_tail<T: Element>(&mut self, cells: &mut [T], num_bits: usize)
        requires width { num_bits ≤ 64 }
        requires room { HasValues self.old num_bits (length cells.old) }
        requires whole { 0 < length cells.old → position self.old % 8 ≡ 0 }
        ensures cells { cells.new ≡ next_cells T.Element.made self.old num_bits (length cells.old) }
        ensures moved { Moved self.old self.new (position self.old + length cells.old * num_bits) }
    {
        let (groups, rest) = cells.split_at_mut(cells.len() - cells.len() % 8);
        self.fill_groups(groups, num_bits);
        self.fill_singles(rest, num_bits);
    }

    // Groups of eight.
    fn fill_groups<T: Element>(&mut self, cells: &mut [T], num_bits: usize)
        requires width { num_bits ≤ 64 }
        requires groups { length cells.old % 8 ≡ 0 }
        requires room { HasValues self.old num_bits (length cells.old) }
        requires whole { 0 < length cells.old → position self.old % 8 ≡ 0 }
        ensures cells { cells.new ≡ next_cells T.Element.made self.old num_bits (length cells.old) }
        ensures moved { Moved self.old self.new (position self.old + length cells.old * num_bits) }
    {
        unpack(&self.buffer[self.byte_offset..], cells, num_bits);
        self.advance(cells.len(), num_bits);
    }
}
