//! The widths of packed numbers, and the codes by which headers name them.
ghost use Rattle.std.specs.Prelude.{◌≡◌, ℕ, ◌<◌, ◌≤◌, MatchOption};
ghost use Rattle.orc_bits.specs.Width.{width_at, IsLeastWidth};

/// How many binary digits a packed number has: one of 1 to 24, 26, 28, 30, 32, 40, 48, 56 and 64
/// (ORC v1, "Run Length Encoding", the table of encoded bit widths).
#[derive(Clone, Copy, Debug, PartialEq, Eq)]
pub struct Width {
    code: u8,
    ghost is_code: { code < 32 },
}

/// The width of a header's five bits, which are below 32; `None` for every other number.
pub fn width_of(code: u8) -> Option<Width>
    // Returns the width with the code `code` if `code` is below 32, and `None` otherwise.
    ensures { MatchOption result (32 ≤ code) (λ width. width.code ≡ code) }
{
    if code < 32 {
        Some(Width { code })
    } else {
        None
    }
}

/// The number below 32 by which a header names a width: the one that `width_of` takes.
pub fn code_of(width: Width) -> u8
    // Returns the code of `width`, which is below 32.
    ensures is { result ≡ width.code }
    ensures below { result < 32 }
{
    width.code
}

/// The least width that has room for numbers of so many digits, of which there are at most 64. For
/// 0 digits it is that of one digit.
pub fn fixed_at_least(digits: u32) -> Width
    requires { digits ≤ 64 }
    // If `digits` is at most 64, then the returned width is the least that has at least `digits` bits. For a `digits`
    // of 0 this is the width of 1 bit.
    ensures { IsLeastWidth digits result.code }
{
    let code = match digits {
        0 => 0,
        1..=24 => digits - 1,
        25..=32 => 24 + (digits - 25) / 2,
        _ => 28 + (digits - 33) / 8,
    };
    Width { code: code as u8 }
}

impl Width {
    /// The number of digits, from 1 to 64.
    pub fn digits(self) -> u32
        // A width has the digits that the format's table gives it, from 1 to 64.
        ensures is { result ≡ width_at self.code }
        ensures some { 1 ≤ result }
        ensures most { result ≤ 64 }
    {
        let code = u32::from(self.code);
        match code {
            0..=23 => code + 1,
            24..=27 => 2 * code - 22,
            _ => 8 * code - 184,
        }
    }
}

/// Laws of widths: no two codes have one width, so there is one least width with room for so many
/// digits.
pub fn width_laws()
    // No two numbers below 32 name one width.
    ensures one_code { (a b : ℕ) → a < 32 → b < 32 → width_at a ≡ width_at b → a ≡ b }
    // There is one least width with room for so many digits.
    ensures one_least { (digits a b : ℕ) → IsLeastWidth digits a → IsLeastWidth digits b → a ≡ b }
{}
