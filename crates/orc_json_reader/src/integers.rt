//! Integers among the numbers of JSON (RFC 8259, "Numbers").
ghost use Rattle.std.specs.Prelude.{◌≡◌, ◌<◌, ◌==◌, false, true, Some, IfSome, IsTrue, length, slice_index, option_and_then};
ghost use Rattle.serde_json.specs.Find.{as_integer};
ghost use Rattle.serde_json.specs.Read.{number_of, number_from};

use fast_float::Numeral;

/// Returns the integer of digits without a sign, if it fits an `i64`.
fn from_zero(numeral: &Numeral<'_>) -> Option<i64>
    ensures { IfSome result (λ z. option_and_then as_integer (number_from false numeral.now) ≡ Some z) }
{
    let Ok(integer) = i64::try_from(numeral.to_u64()?) else {
        return None;
    };
    Some(integer)
}

/// Returns the integer of digits after a minus, if it fits an `i64`. `-0` is no integer, because `serde_json` reads none there.
fn below_zero(numeral: &Numeral<'_>) -> Option<i64>
    ensures { IfSome result (λ z. option_and_then as_integer (number_from true numeral.now) ≡ Some z) }
{
    let integer = numeral.to_i64(true)?;
    if integer < 0 { Some(integer) } else { None }
}

/// Whether a number of JSON begins with its minus.
fn has_minus(bytes: &[u8]) -> bool
    ensures value { result ≡ (slice_index bytes.now 0 == 45) }
    ensures len { IsTrue result → 0 < length bytes.now }
{
    !bytes.is_empty() && bytes[0] == b'-'
}

/// Returns the integer that a number of JSON is, if it has no fraction and no exponent and fits an `i64`.
pub(crate) fn integer_of(text: &str) -> Option<i64>
    ensures { IfSome result (λ z. option_and_then as_integer (number_of text.now) ≡ Some z) }
{
    let bytes = text.as_bytes();
    if has_minus(bytes) {
        below_zero(&Numeral::scan(&bytes[1..]))
    } else {
        from_zero(&Numeral::scan(bytes))
    }
}
