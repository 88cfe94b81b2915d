//! Variable-length numbers: ULEB128, seven bits to a byte.
ghost use Rattle.std.specs.Prelude.{◌≡◌, ℕ, ◌+◌, ◌^◌, ◌<◌, ◌≤◌, List, length, Ok, nat_lt};
ghost use Rattle.packed.specs.Bytes.{overwrite};
ghost use Rattle.packed.specs.Vlq.{SoFar, read_vlq, vlq};

use crate::faults::{Fault, FaultKind};

/// Writes `v` in the fewest bytes from `at` on, and answers how many they are.
// Buffer and place stay apart, here and in reading: the promises speak of the whole buffer, and a fault tells its place in it.
pub fn write_vlq(out: &mut [u8], at: usize, v: u64) -> usize
    requires { at + length (vlq v) ≤ length out.old }
    ensures bytes { out.new ≡ overwrite out.old at (vlq v) }
    ensures taken { result ≡ length (vlq v) }
    ensures back { read_vlq out.new at ≡ Ok (v, result) }
    ensures fewest { (s : List ℕ) (p n : ℕ) → read_vlq s p ≡ Ok (v, n) → result ≤ n }
{
    let mut rest = v;
    let field = &mut out[at..];
    for (i, byte) in field.iter_mut().enumerate() {
        if is_last(rest) {
            *byte = rest as u8;
            return i + 1;
        }
        *byte = 128 + (rest % 128) as u8;
        rest /= 128;
    }
    // there is room for the last digit
    unreachable!()
}

// Whether a number is one digit, with none to follow.
fn is_last(n: u64) -> bool
    ensures { result ≡ nat_lt n 128 }
{
    n < 128
}

/// Reads the number that begins at `at`: the number and how many bytes it took.
pub fn read_vlq(page: &[u8], at: usize) -> Result<(u64, usize), Fault>
    requires { at ≤ length page.now }
    ensures value { result ≡ read_vlq page.now at }
    ensures below { (n taken : ℕ) → result ≡ Ok (n, taken) → n < 2 ^ 64 }
    ensures within { (n taken : ℕ) → result ≡ Ok (n, taken) → at + taken ≤ length page.now }
{
    let field = &page[at..];
    let mut value: u64 = 0;
    for (i, byte) in field.iter().enumerate() {
        if i == 9 {
            return read_tenth(page, at, value);
        }
        value += ((byte % 128) as u64) << (7 * i);
        if *byte < 128 {
            return Ok((value, i + 1));
        }
    }
    Err(FaultKind::DataEnds.at(at))
}

// The tenth byte, behind nine that continue: of 64 bits one is left.
fn read_tenth(page: &[u8], at: usize, low: u64) -> Result<(u64, usize), Fault>
    requires nine { SoFar page.now at 9 low }
    requires tenth { at + 9 < length page.now }
    ensures { result ≡ read_vlq page.now at }
{
    let byte = page[at + 9];
    if fits_one_bit(byte) {
        return Ok((low + ((byte as u64) << 63), 10));
    }
    if byte < 128 || at + 10 < page.len() {
        return Err(FaultKind::VlqTooLarge.at(at));
    }
    Err(FaultKind::DataEnds.at(at))
}

fn fits_one_bit(byte: u8) -> bool
    ensures { result ≡ nat_lt byte 2 }
{
    byte < 2
}
