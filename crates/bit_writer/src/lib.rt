//! A writer of packed values, whole bytes and variable-length numbers over a lent buffer.
//!
//! Widths and counts of bytes stay plain numbers with a bound: a type for each would be taken apart again in every call. What
//! a call asks besides (`HasRoom`, `AllFit`, `HoldsNone`) goes by what it writes, and is no fact that a writer keeps.
#![tactic(auto)]

ghost use Rattle.std.specs.Prelude.{◌≡◌, ◌+◌, ◌*◌, ◌/◌, ◌%◌, ◌^◌, ◌<◌, ◌≤◌, length, replicate};
ghost use Rattle.packed.specs.Bytes.{overwrite};
ghost use Rattle.packed.specs.Digits.{digits};
ghost use Rattle.bit_writer.specs.Sizes.{bytes_for};

use packed::{to_zigzag, write_vlq};

/// Writes into a buffer, the lowest bit of each byte first. Bits that do not fill a word yet are held back, until a word
/// is full or the writer is flushed.
#[derive(Debug, Drop)]
pub struct BitWriter<'a> {
    out: &'a mut [u8],
    byte_offset: usize,
    buffered_values: u64,
    bit_offset: usize,
    pub ghost inside: { byte_offset ≤ length out.now },
    // the bits that are held: fewer than 64, as one number
    pub ghost few: { bit_offset < 64 },
    pub ghost small: { buffered_values < 2 ^ bit_offset },
}

impl<'a> BitWriter<'a> {
    ghost use Rattle.std.specs.Prelude.{ℕ, ◌++◌, slice_index, slice_set};
    ghost use Rattle.packed.specs.Bytes.{bits_at};
    ghost use Rattle.packed.specs.Vlq.{vlq};
    ghost use Rattle.packed.specs.Zigzag.{zigzag_of};
    ghost use Rattle.bit_writer.specs.Sizes.{words_for};
    ghost use Rattle.bit_writer.specs.Writer.{AllFit, HasRoom, HoldsNone, PutBits, SamePlace, Wrote, buffer, held_bytes, packed_bytes, written};

    /// A writer at the buffer's first byte.
    pub fn new(out: &'a mut [u8]) -> BitWriter<'a>
        ensures same { buffer result ≡ out.old }
        ensures lent { result.out.ghost_name ≡ out.entry.ghost_name }
        ensures place { result.byte_offset ≡ 0 }
        ensures held { result.buffered_values ≡ 0 }
        ensures count { result.bit_offset ≡ 0 }
    {
        BitWriter {
            out,
            byte_offset: 0,
            buffered_values: 0,
            bit_offset: 0,
        }
    }

    /// How many bytes are written, with the one that is begun.
    pub fn bytes_written(&self) -> usize
        requires { HasRoom self.now 0 }
        ensures { result ≡ written self.now }
    {
        self.byte_offset + bytes_for(self.bit_offset)
    }

    /// Puts the lowest `num_bits` bits of `v`, which has no others.
    pub fn put_value(&mut self, v: u64, num_bits: usize)
        requires width { num_bits ≤ 64 }
        requires fits { v < 2 ^ num_bits }
        requires room { self.old.byte_offset + words_for (self.old.bit_offset + num_bits) ≤ length (buffer self.old) }
        ensures { PutBits self.old self.new (self.old.buffered_values + v * 2 ^ self.old.bit_offset) (self.old.bit_offset + num_bits) }
    {
        let count = self.bit_offset;
        let word = self.buffered_values | above(v, count);
        if count + num_bits < 64 {
            self.buffered_values = word;
            self.bit_offset = count + num_bits;
            return;
        }
        let at = self.byte_offset;
        store_bytes(self.out, at, word, 8);
        self.byte_offset = at + 8;
        self.buffered_values = carried(v, 64 - count);
        self.bit_offset = count + num_bits - 64;
    }

    /// Writes the bits that are held, filled up to a whole byte with zeros.
    pub fn flush(&mut self)
        requires { HasRoom self.old 0 }
        ensures bytes { Wrote self.old self.new (held_bytes self.old) }
        ensures place { self.new.byte_offset ≡ written self.old }
    {
        let count = bytes_for(self.bit_offset);
        let held = self.buffered_values;
        self.buffered_values = 0;
        self.bit_offset = 0;
        self.append_bytes(held, count);
    }

    /// Writes the lowest `num_bytes` bytes of `v` from the next whole byte on, the lowest first.
    #[tactic(auto, using(crate::proofs::Writing::wrote_buffer, crate::proofs::Writing::wrote_place))]
    pub fn put_aligned(&mut self, v: u64, num_bytes: usize)
        requires bytes { num_bytes ≤ 8 }
        requires room { HasRoom self.old num_bytes }
        ensures { Wrote self.old self.new (held_bytes self.old ++ digits 256 num_bytes v) }
    {
        self.flush();
        self.append_bytes(v, num_bytes);
    }

    /// Writes the lowest `num_bytes` bytes of `v` over those from `offset` on, which were reserved before.
    pub fn put_aligned_offset(&mut self, v: u64, num_bytes: usize, offset: usize)
        requires bytes { num_bytes ≤ 8 }
        requires reserved { offset + num_bytes ≤ length (buffer self.old) }
        ensures bytes { buffer self.new ≡ overwrite (buffer self.old) offset (digits 256 num_bytes v) }
        ensures place { SamePlace self.old self.new }
    {
        store_bytes(self.out, offset, v, num_bytes);
    }

    /// Writes one byte over that at `offset`, which was reserved before.
    pub fn write_at(&mut self, offset: usize, value: u8)
        requires { offset < length (buffer self.old) }
        ensures bytes { buffer self.new ≡ slice_set (buffer self.old) offset value }
        ensures place { SamePlace self.old self.new }
    {
        self.out[offset] = value;
    }

    /// Reserves zero bytes from the next whole byte on, and answers the place of the first.
    #[tactic(auto, using(crate::proofs::Writing::wrote_buffer, crate::proofs::Writing::wrote_place))]
    pub fn skip(&mut self, num_bytes: usize) -> usize
        requires { HasRoom self.old num_bytes }
        ensures bytes { Wrote self.old self.new (held_bytes self.old ++ replicate num_bytes 0) }
        ensures first { result ≡ written self.old }
    {
        self.flush();
        let first = self.byte_offset;
        self.append_zeros(num_bytes);
        first
    }

    /// Writes `v` as a VLQ from the next whole byte on.
    #[tactic(auto, using(crate::proofs::Writing::wrote_buffer, crate::proofs::Writing::wrote_place))]
    pub fn put_vlq_int(&mut self, v: u64)
        requires { HasRoom self.old (length (vlq v)) }
        ensures { Wrote self.old self.new (held_bytes self.old ++ vlq v) }
    {
        self.flush();
        self.append_vlq(v);
    }

    /// Writes the zigzag of `v` as a VLQ from the next whole byte on.
    pub fn put_zigzag_vlq_int(&mut self, v: i64)
        requires { HasRoom self.old (length (vlq (zigzag_of v))) }
        ensures { Wrote self.old self.new (held_bytes self.old ++ vlq (zigzag_of v)) }
    {
        self.put_vlq_int(to_zigzag(v));
    }

    /// Writes values of `num_bits` bits each, one behind the other, from the next whole byte on. The last byte is filled
    /// up with zero bits.
    #[tactic(auto, using(crate::proofs::Writing::wrote_buffer, crate::proofs::Writing::wrote_place))]
    pub fn put_packed(&mut self, values: &[u64], num_bits: usize)
        requires width { num_bits ≤ 64 }
        requires fits { AllFit num_bits values.now }
        requires room { HasRoom self.old (bytes_for (length values.now * num_bits)) }
        ensures bytes { Wrote self.old self.new (held_bytes self.old ++ packed_bytes num_bits values.now) }
        ensures back { (i : ℕ) → i < length values.now → bits_at (buffer self.new) (8 * written self.old + i * num_bits) num_bits ≡ slice_index values.now i }
    {
        self.flush();
        self.append_packed(values, num_bits);
    }

    // Four methods append where no bit is held, and not one: each stores in its own way, so that one for all would take the
    // store as a closure.

    // Packed values right behind the bytes that were written.
    fn append_packed(&mut self, values: &[u64], num_bits: usize)
        requires none { HoldsNone self.old }
        requires width { num_bits ≤ 64 }
        requires fits { AllFit num_bits values.now }
        requires room { self.old.byte_offset + bytes_for (length values.now * num_bits) ≤ length (buffer self.old) }
        ensures bytes { Wrote self.old self.new (packed_bytes num_bits values.now) }
        ensures back { (i : ℕ) → i < length values.now → bits_at (buffer self.new) (8 * self.old.byte_offset + i * num_bits) num_bits ≡ slice_index values.now i }
    {
        for v in values {
            self.put_value(*v, num_bits);
        }
        self.flush();
    }

    // Bytes right behind those that were written.
    fn append_bytes(&mut self, v: u64, count: usize)
        requires none { HoldsNone self.old }
        requires bytes { count ≤ 8 }
        requires room { self.old.byte_offset + count ≤ length (buffer self.old) }
        ensures { Wrote self.old self.new (digits 256 count v) }
    {
        let at = self.byte_offset;
        store_bytes(self.out, at, v, count);
        self.byte_offset = at + count;
    }

    // Zeros right behind the bytes that were written.
    fn append_zeros(&mut self, count: usize)
        requires none { HoldsNone self.old }
        requires room { self.old.byte_offset + count ≤ length (buffer self.old) }
        ensures { Wrote self.old self.new (replicate count 0) }
    {
        let at = self.byte_offset;
        self.out[at..at + count].fill(0);
        self.byte_offset = at + count;
    }

    // A VLQ right behind the bytes that were written.
    fn append_vlq(&mut self, v: u64)
        requires none { HoldsNone self.old }
        requires room { self.old.byte_offset + length (vlq v) ≤ length (buffer self.old) }
        ensures { Wrote self.old self.new (vlq v) }
    {
        self.byte_offset += write_vlq(self.out, self.byte_offset, v);
    }
}

// A value above `count` bits, as far as a word reaches.
fn above(v: u64, count: usize) -> u64
    requires { count < 64 }
    ensures { result ≡ (v * 2 ^ count) % 2 ^ 64 }
{
    v << count
}

// What is left of a value whose lowest bits went into the word before.
fn carried(v: u64, taken: usize) -> u64
    requires { taken ≤ 64 }
    ensures { result ≡ v / 2 ^ taken }
{
    v.unbounded_shr(taken as u32)
}

// How many bytes hold `bits` bits.
fn bytes_for(bits: usize) -> usize
    ensures { result ≡ bytes_for bits }
{
    bits.div_ceil(8)
}

// The lowest `count` bytes of `v`, over those from `at` on. The writer's promises speak of its whole buffer, so a place goes
// with it, and no part of it.
fn store_bytes(out: &mut [u8], at: usize, v: u64, count: usize)
    requires bytes { count ≤ 8 }
    requires room { at + count ≤ length out.old }
    ensures { out.new ≡ overwrite out.old at (digits 256 count v) }
{
    out[at..at + count].copy_from_slice(&v.to_le_bytes()[..count]);
}
