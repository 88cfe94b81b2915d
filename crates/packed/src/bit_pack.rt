//! Packed values and the kernel that unpacks them: whole words, shifts and masks, at a width that is known at run time.
//!
//! Widths stay plain numbers with a bound, and a group a slice of eight cells: a type for either would be made in one call and
//! taken apart in the next.
ghost use Rattle.std.specs.Prelude.{◌≡◌, ◌+◌, ◌*◌, ◌/◌, ◌%◌, ◌^◌, ◌<◌, ◌≤◌, length, nat_lt};
ghost use Rattle.packed.specs.Bytes.{bits_at, cells_at};

use crate::element::Element;

// The lowest `num_bits` bits of `v`.
fn trailing_bits(v: u64, num_bits: usize) -> u64
    requires { num_bits ≤ 64 }
    ensures { result ≡ v % 2 ^ num_bits }
{
    if num_bits == 64 {
        v
    } else {
        v & ((1u64 << num_bits) - 1)
    }
}

// The `num_bits` bits of a word that begin at bit `from`.
fn word_bits(word: u64, from: usize, num_bits: usize) -> u64
    requires start { from < 64 }
    requires width { num_bits ≤ 64 }
    ensures { result ≡ word / 2 ^ from % 2 ^ num_bits }
{
    trailing_bits(word >> from, num_bits)
}

// The first eight bytes as a word, the first byte lowest; past the end bytes are 0.
fn load_word(s: &[u8]) -> u64
    ensures { result ≡ bits_at s.now 0 64 }
{
    if s.len() >= 8 {
        whole_word(s)
    } else {
        load_rest(s)
    }
}

fn whole_word(s: &[u8]) -> u64
    requires { 8 ≤ length s.now }
    ensures { result ≡ bits_at s.now 0 64 }
{
    match s.first_chunk::<8>() {
        Some(bytes) => u64::from_le_bytes(*bytes),
        None => unreachable!(),
    }
}

// Fewer than eight bytes.
fn load_rest(s: &[u8]) -> u64
    requires { length s.now < 8 }
    ensures { result ≡ bits_at s.now 0 64 }
{
    // A copy into eight bytes of zeros would be a call, since its length is known at run time, and reading it back waits for it.
    let mut word: u64 = 0;
    for i in (0..s.len()).rev() {
        word = word * 256 + s[i] as u64;
    }
    word
}

/// Whether a value has at most `num_bits` bits.
#[tactic(auto, using(crate::proofs::Shifts::none_left))]
pub fn fits(v: u64, num_bits: usize) -> bool
    requires { num_bits ≤ 64 }
    ensures { result ≡ nat_lt v (2 ^ num_bits) }
{
    v.unbounded_shr(num_bits as u32) == 0
}

/// The `num_bits` bits that begin at a bit of a byte.
// The bits of the page are one string, of which this tells a place: a slice from the byte on would still need the bit.
pub fn bits_at(s: &[u8], byte: usize, bit: usize, num_bits: usize) -> u64
    requires start { bit < 8 }
    requires width { num_bits ≤ 64 }
    requires room { 8 * byte + bit + num_bits ≤ 8 * length s.now }
    ensures { result ≡ bits_at s.now (8 * byte + bit) num_bits }
{
    let word = load_word(&s[byte..]);
    if bit + num_bits <= 64 {
        return word_bits(word, bit, num_bits);
    }
    // the value reaches into a ninth byte
    let high = (s[byte + 8] as u64) << (64 - bit);
    trailing_bits((word >> bit) + high, num_bits)
}

/// Unpacks as many values as `output` has cells, a multiple of eight, from the first byte of `input` on.
pub fn unpack<T: Element>(input: &[u8], output: &mut [T], num_bits: usize)
    requires width { num_bits ≤ 64 }
    requires groups { length output.old % 8 ≡ 0 }
    requires room { length output.old * num_bits ≤ 8 * length input.now }
    ensures { output.new ≡ cells_at T.Element.made input.now 0 num_bits (length output.old) }
{
    // After `chunks_exact_mut` nothing is known of the cells.
    for group in 0..output.len() / 8 {
        let cells = &mut output[8 * group..8 * group + 8];
        unpack_group(&input[group * num_bits..], cells, num_bits);
    }
}

// Unpacks eight values, which fill whole bytes at any width.
fn unpack_group<T: Element>(input: &[u8], cells: &mut [T], num_bits: usize)
    requires width { num_bits ≤ 64 }
    requires group { length cells.old ≡ 8 }
    requires room { num_bits ≤ length input.now }
    ensures { cells.new ≡ cells_at T.Element.made input.now 0 num_bits 8 }
{
    if num_bits <= 8 {
        unpack_narrow(input, cells, num_bits);
    } else if num_bits <= 57 && input.len() >= num_bits + 8 {
        unpack_middle(input, cells, num_bits);
    } else {
        unpack_wide(input, cells, num_bits);
    }
}

// Eight values of at most eight bits lie in one word.
fn unpack_narrow<T: Element>(input: &[u8], cells: &mut [T], num_bits: usize)
    requires width { num_bits ≤ 8 }
    requires group { length cells.old ≡ 8 }
    ensures { cells.new ≡ cells_at T.Element.made input.now 0 num_bits 8 }
{
    let word = load_word(input);
    for (i, cell) in cells.iter_mut().enumerate() {
        *cell = T::from_pattern(word_bits(word, i * num_bits, num_bits));
    }
}

// A value of at most 57 bits lies in the eight bytes from the one that it begins in. Where those are there for each of the
// eight, nothing is left to test.
fn unpack_middle<T: Element>(input: &[u8], cells: &mut [T], num_bits: usize)
    requires width { num_bits ≤ 57 }
    requires group { length cells.old ≡ 8 }
    requires room { num_bits + 8 ≤ length input.now }
    ensures { cells.new ≡ cells_at T.Element.made input.now 0 num_bits 8 }
{
    for (i, cell) in cells.iter_mut().enumerate() {
        let from = i * num_bits;
        let word = whole_word(&input[from / 8..]);
        *cell = T::from_pattern(word_bits(word, from % 8, num_bits));
    }
}

// Any other values, one by one. Apart from the kernel's other loops, which are unrolled worse with this one among them.
#[inline(never)]
fn unpack_wide<T: Element>(input: &[u8], cells: &mut [T], num_bits: usize)
    requires width { num_bits ≤ 64 }
    requires group { length cells.old ≡ 8 }
    requires room { num_bits ≤ length input.now }
    ensures { cells.new ≡ cells_at T.Element.made input.now 0 num_bits 8 }
{
    for (i, cell) in cells.iter_mut().enumerate() {
        let from = i * num_bits;
        *cell = T::from_pattern(bits_at(input, from / 8, from % 8, num_bits));
    }
}
