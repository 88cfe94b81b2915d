//! The bytes of one run or group, before they go into a page.
//!
//! A width and a run's count stay plain numbers with a bound: a type for each would be taken apart again in each of these
//! functions.
ghost use Rattle.std.specs.Prelude.{◌≡◌, ◌+◌, ◌^◌, ◌<◌, ◌≤◌, length, take};
ghost use Rattle.bit_writer.specs.Writer.{AllFit};
ghost use Rattle.rle.specs.Runs.{bytes_of, repeated, value_bytes};
ghost use Rattle.packed.specs.Digits.{digits, number};
ghost use Rattle.packed.specs.Vlq.{vlq};

use arrayvec::ArrayVec;
use bit_writer::BitWriter;

/// How many bytes a repeated value of `width` bits takes.
// The writer's `bytes_for` is this too, by the word of its own definition: joined they would be one call of `div_ceil` still.
pub fn value_bytes(width: usize) -> usize
    requires { width ≤ 64 }
    ensures { result ≡ value_bytes width }
{
    width.div_ceil(8)
}

/// How many bytes `n` takes as a VLQ.
pub fn vlq_length(n: u64) -> usize
    ensures { result ≡ length (vlq n) }
{
    1 + continuing_bytes(n)
}

// How many of a VLQ's bytes have another behind them: one for each seven bits below the highest.
fn continuing_bytes(n: u64) -> usize
    ensures value { 1 + result ≡ length (vlq n) }
    ensures short { result < 10 }
{
    // one byte, as most headers are, is told without the logarithm
    if n < 128 {
        return 0;
    }
    n.ilog2() as usize / 7
}

/// The bytes of a run that repeats a value.
pub fn repeated_bytes(count: usize, value: u64, width: usize) -> ArrayVec<u8, 16>
    requires width { width ≤ 64 }
    requires count { count ≤ 2147483647 }
    ensures { result.items ≡ bytes_of width (repeated count value) }
{
    let mut bytes = [0; 16];
    let taken = store_repeated(&mut bytes, count, value, width);
    front(bytes, taken)
}

// The bytes of a run that repeats a value, at the front of a buffer, and how many they are.
fn store_repeated(out: &mut [u8], count: usize, value: u64, width: usize) -> usize
    requires width { width ≤ 64 }
    requires count { count ≤ 2147483647 }
    requires room { 16 ≤ length out.old }
    ensures { take result out.new ≡ bytes_of width (repeated count value) }
{
    let mut writer = BitWriter::new(out);
    writer.put_vlq_int(2 * count as u64);
    writer.put_aligned(value, value_bytes(width));
    writer.bytes_written()
}

/// The bytes of a packed group of eight values: one byte for each bit of the width.
pub fn group_bytes(values: [u64; 8], width: usize) -> ArrayVec<u8, 64>
    requires width { width ≤ 64 }
    requires fits { AllFit width values }
    ensures { result.items ≡ digits 256 width (number (2 ^ width) values) }
{
    let mut bytes = [0; 64];
    store_group(&mut bytes, &values, width);
    front(bytes, width)
}

// The bytes of a packed group of eight values, at the front of a buffer.
fn store_group(out: &mut [u8], values: &[u64], width: usize)
    requires width { width ≤ 64 }
    requires eight { length values.now ≡ 8 }
    requires fits { AllFit width values.now }
    requires room { width ≤ length out.old }
    ensures { take width out.new ≡ digits 256 width (number (2 ^ width) values.now) }
{
    let mut writer = BitWriter::new(out);
    writer.put_packed(values, width);
}

// The first `count` bytes of an array.
fn front<const N: usize>(bytes: [u8; N], count: usize) -> ArrayVec<u8, N>
    ensures { result.items ≡ take count bytes.entry }
{
    let mut front = ArrayVec::from(bytes);
    front.truncate(count);
    front
}
