//! Signed numbers as unsigned ones that stay small near zero.
ghost use Rattle.packed.specs.Zigzag.{zigzag_of, unzigzag_of};
ghost use Rattle.std.specs.Prelude.{◌≡◌, ◌^◌, ◌<◌, negsuc};

/// 2 v for v ≥ 0, and -2 v - 1 below.
pub fn to_zigzag(v: i64) -> u64
    ensures value { result ≡ zigzag_of v }
    ensures back { unzigzag_of result ≡ v }
{
    if v >= 0 {
        v as u64 * 2
    } else {
        (-(v + 1)) as u64 * 2 + 1
    }
}

/// The number whose zigzag is `u`.
pub fn from_zigzag(u: u64) -> i64
    ensures value { result ≡ unzigzag_of u }
    ensures back { zigzag_of result ≡ u }
{
    if u % 2 == 0 {
        (u / 2) as i64
    } else {
        below_zero(u / 2)
    }
}

// -(n + 1)
fn below_zero(n: u64) -> i64
    requires { n < 2 ^ 63 }
    ensures { result ≡ negsuc n }
{
    -1 - n as i64
}
