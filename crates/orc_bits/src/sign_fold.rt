//! Zigzag: signed numbers as unsigned ones.
ghost use Rattle.std.specs.Prelude.{◌≡◌, ℤ};
ghost use Rattle.orc_bits.specs.Zigzag.{zig};

/// The zigzag number of `n`, so that numbers near 0 of either sign are small: 0, -1, 1, -2 become
/// 0, 1, 2, 3 (Protocol Buffers encoding, "Signed Integers").
pub fn zigzag(n: i64) -> u64
    // Returns 2 * `n` if `n` is at least 0, and -2 * `n` - 1 if `n` is negative.
    ensures value { result ≡ zig n }
    // If an integer has the returned zigzag number, then this integer is `n`.
    ensures only { (m : ℤ) → zig m ≡ result → m ≡ n }
{
    if n < 0 {
        2 * (!n as u64) + 1
    } else {
        2 * (n as u64)
    }
}

/// The one number whose zigzag number is `n`.
pub fn unzigzag(n: u64) -> i64
    // Returns the only integer that has the zigzag number `n`.
    ensures value { zig result ≡ n }
    ensures only { (m : ℤ) → zig m ≡ n → m ≡ result }
{
    let half = (n / 2) as i64;
    if n % 2 == 0 { half } else { !half }
}
