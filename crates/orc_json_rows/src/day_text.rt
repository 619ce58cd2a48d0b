//! Dates: a number of days since 1970-01-01, and its text `YYYY-MM-DD`.
ghost use Rattle.std.specs.Prelude.{◌≡◌, ℤ, true, IfOk, MatchOption, string_bytes};
ghost use Rattle.orc_json_rows.specs.Days as spec;

use jiff::civil::Date;
use jiff_core::civil;
use jiff_fmt::temporal::DateTimePrinter;
use std::alloc::{AllocError, Global};

/// The first day that has a text: 0001-01-01.
const FIRST_DAY: i32 = -719_162;

/// The last day that has a text: 9999-12-31.
const LAST_DAY: i32 = 2_932_896;

/// Whether the day is one of the years 0001 to 9999, whose dates have texts `YYYY-MM-DD`. Day 0 is
/// 1970-01-01.
pub(crate) fn has_text(day: i32) -> bool
    ensures { result ≡ spec.has_text day }
{
    FIRST_DAY <= day && day <= LAST_DAY
}

/// The text `YYYY-MM-DD` of a day of the years 0001 to 9999, where day 0 is 1970-01-01 (ORC
/// specification, "Types").
///
/// Refusal: memory that ran out.
pub(crate) fn day_text(alloc: Global, day: i32) -> Result<String, AllocError>
    requires { spec.has_text day ≡ true }
    ensures found { IfOk result (λ text. string_bytes text ≡ spec.day_text day) }
{
    match civil::Date::from_unix_epoch_day(i64::from(day)) {
        Ok(plain) => Date::from_plain(plain).to_string(alloc),
        Err(_) => unreachable!(),
    }
}

/// A day as the text `YYYY-MM-DD` in the years 0001 to 9999, and as its number in others, where day 0 is
/// 1970-01-01 (ORC specification, "Types").
///
/// Refusal: memory that ran out.
pub fn date_text(alloc: Global, day: i32) -> Result<String, AllocError>
    // Unless memory is refused, a day of the years 0001 to 9999 is written as its text, and any
    // other as its number.
    ensures { IfOk result (λ text. string_bytes text ≡ spec.date_text day) }
{
    if has_text(day) {
        day_text(alloc, day)
    } else {
        format!(in alloc; "{day}")
    }
}

/// The day whose text this is, where day 0 is 1970-01-01; none where the text is no date of the
/// years 0001 to 9999, written `YYYY-MM-DD`.
pub(crate) fn day_of_text(text: &str) -> Option<i32>
    ensures { MatchOption result ((day : ℤ) → spec.IsDayText text.now day → ⊥) (λ day. spec.IsDayText text.now day) }
{
    let Ok(date) = text.parse::<Date>() else {
        return None;
    };
    let plain = date.to_plain();
    let day = plain.to_unix_epoch_day();
    if !has_text(day) {
        return None;
    }
    // jiff reads more than this form, such as a date with a time behind it.
    let printed = DateTimePrinter::new().date_text(plain);
    if printed.as_str() != text {
        return None;
    }
    Some(day)
}
