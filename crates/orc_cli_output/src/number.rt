//! Reads numbers among the arguments of a command.
ghost use Rattle.std.specs.Prelude.{ℕ, IfSome, IsSome};
ghost use Rattle.orc_cli_output.specs.Numbers.{IsDecimalNumber};

/// Returns the number that decimal digits spell, if it is below 2^32. Leading zeros are allowed, and signs aren't.
pub fn number_of(digits: &str) -> Option<u32>
    // A number is returned if and only if `digits` is one or more decimal digits, leading zeros allowed, that spell a
    // number below 2^32, and then it is this number.
    ensures found { IfSome result (IsDecimalNumber digits.now) }
    ensures only { (n : ℕ) → IsDecimalNumber digits.now n → IsSome result }
{
    match digits.as_bytes().first() {
        Some(b'+') => None,
        _ => digits.parse::<u32>().ok(),
    }
}
