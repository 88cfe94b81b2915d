//! The elements of a column: values that have a pattern of at most 64 bits, and that every pattern makes.
ghost use Rattle.std.specs.Prelude.{◌≡◌, ℕ, ◌%◌, ◌^◌, ◌<◌, ◌≤◌, FitsSigned};
ghost use Rattle.std.specs.Int.{w32, w64, cast_unsigned};
ghost use Rattle.std.proofs.Common.{lit≤};
ghost use Rattle.packed.specs.Patterns.{IsUnsigned, low_bits, signed_bits, unsigned_below, unsigned_makes, unsigned_wraps, signed_below, signed_makes, signed_wraps};

/// A type of column elements, by its patterns.
///
/// At a number type the ghost members range over all numbers, so the laws have the premise `proper`, which `to_pattern` hands
/// out.
pub trait Element: Copy {
    /// How many bits a pattern has, 1 to 64.
    const WIDTH: u32;

    ghost WIDTH: { ℕ };

    /// The numbers that are values of the type.
    ghost proper: { Self → Type 0 };

    ghost pattern: { Self → ℕ };

    ghost made: { ℕ → Self };

    /// A value's pattern.
    fn to_pattern(self) -> u64
        ensures value { result ≡ pattern self }
        ensures fit { proper self };

    /// The value that a pattern makes.
    fn from_pattern(p: u64) -> Self
        ensures { result ≡ made p };

    ghost narrow: { (1 ≤ WIDTH) × (WIDTH ≤ 64) };

    ghost below: { (v : Self) → proper v → pattern v < 2 ^ WIDTH };

    ghost makes: { (v : Self) → proper v → made (pattern v) ≡ v };

    ghost wraps: { (p : ℕ) → p < 2 ^ 64 → pattern (made p) ≡ p % 2 ^ WIDTH };
}

// One impl for each number type, over definitions and laws of its width: an impl over a trait of number types would have to
// give the width as a constant, which none of those traits has, and impls by a macro of the repository's own are refused.
impl Element for u8 {
    const WIDTH: u32 = 8;

    ghost WIDTH = { 8 };

    ghost proper = { IsUnsigned 8 };

    ghost pattern = { λ v. v };

    ghost made = { low_bits 8 };

    ghost narrow = { (lit≤ tt, lit≤ tt) };

    ghost below = { unsigned_below 8 };

    ghost makes = { unsigned_makes 8 };

    ghost wraps = { unsigned_wraps 8 };

    fn to_pattern(self) -> u64 {
        self as u64
    }

    fn from_pattern(p: u64) -> u8 {
        (p % 256) as u8
    }
}

impl Element for u16 {
    const WIDTH: u32 = 16;

    ghost WIDTH = { 16 };

    ghost proper = { IsUnsigned 16 };

    ghost pattern = { λ v. v };

    ghost made = { low_bits 16 };

    ghost narrow = { (lit≤ tt, lit≤ tt) };

    ghost below = { unsigned_below 16 };

    ghost makes = { unsigned_makes 16 };

    ghost wraps = { unsigned_wraps 16 };

    fn to_pattern(self) -> u64 {
        self as u64
    }

    fn from_pattern(p: u64) -> u16 {
        (p % 65536) as u16
    }
}

impl Element for u32 {
    const WIDTH: u32 = 32;

    ghost WIDTH = { 32 };

    ghost proper = { IsUnsigned 32 };

    ghost pattern = { λ v. v };

    ghost made = { low_bits 32 };

    ghost narrow = { (lit≤ tt, lit≤ tt) };

    ghost below = { unsigned_below 32 };

    ghost makes = { unsigned_makes 32 };

    ghost wraps = { unsigned_wraps 32 };

    fn to_pattern(self) -> u64 {
        self as u64
    }

    fn from_pattern(p: u64) -> u32 {
        (p % 4294967296) as u32
    }
}

impl Element for u64 {
    const WIDTH: u32 = 64;

    ghost WIDTH = { 64 };

    ghost proper = { IsUnsigned 64 };

    ghost pattern = { λ v. v };

    ghost made = { low_bits 64 };

    ghost narrow = { (lit≤ tt, lit≤ tt) };

    ghost below = { unsigned_below 64 };

    ghost makes = { unsigned_makes 64 };

    ghost wraps = { unsigned_wraps 64 };

    fn to_pattern(self) -> u64 {
        self
    }

    fn from_pattern(p: u64) -> u64 {
        p
    }
}

impl Element for i32 {
    const WIDTH: u32 = 32;

    ghost WIDTH = { 32 };

    ghost proper = { FitsSigned w32 };

    ghost pattern = { cast_unsigned w32 };

    ghost made = { signed_bits w32 32 };

    ghost narrow = { (lit≤ tt, lit≤ tt) };

    ghost below = { signed_below w32 };

    ghost makes = { signed_makes w32 };

    ghost wraps = { signed_wraps w32 };

    fn to_pattern(self) -> u64 {
        self.cast_unsigned() as u64
    }

    fn from_pattern(p: u64) -> i32 {
        ((p % 4294967296) as u32).cast_signed()
    }
}

impl Element for i64 {
    const WIDTH: u32 = 64;

    ghost WIDTH = { 64 };

    ghost proper = { FitsSigned w64 };

    ghost pattern = { cast_unsigned w64 };

    ghost made = { signed_bits w64 64 };

    ghost narrow = { (lit≤ tt, lit≤ tt) };

    ghost below = { signed_below w64 };

    ghost makes = { signed_makes w64 };

    ghost wraps = { signed_wraps w64 };

    fn to_pattern(self) -> u64 {
        self.cast_unsigned()
    }

    fn from_pattern(p: u64) -> i64 {
        p.cast_signed()
    }
}
