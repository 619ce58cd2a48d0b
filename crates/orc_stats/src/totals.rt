//! Sums and numbers of values while they are counted. A sum may pass 64 bits on the way.
ghost use Rattle.std.specs.Prelude.{◌≡◌, ◌+◌, ◌+ℤ◌, ◌^◌, ◌<◌, ◌≤◌, unsigned_abs};
ghost use Rattle.std.specs.Option.{option_and_then};
ghost use Rattle.orc_stats.specs.Seen.{both, seen_of, known_of};
ghost use Rattle.orc_stats.specs.Statistics.{in_64 as fit, in_u64 as room};
ghost use Rattle.orc_stats.specs.Joining.{in_limit as limit};
ghost use Rattle.orc_stats.specs.declared.seen.Seen.TheVariants.{Known};
ghost use Rattle.orc_stats.specs.Sizes.{total_size, count_size};

use crate::seen::Seen;

/// Returns the total of both.
pub(crate) fn plus(one: Seen<i128>, other: Seen<i128>) -> Seen<i128>
    requires { total_size one + total_size other < 2 ^ 127 }
    ensures total { result ≡ both ◌+ℤ◌ one other }
    ensures size { total_size result ≤ total_size one + total_size other }
{
    match (one, other) {
        (Seen::Nothing, part) | (part, Seen::Nothing) => part,
        (Seen::Known(x), Seen::Known(y)) => Seen::Known(x + y),
        _ => Seen::Unknown,
    }
}

/// Adds a number to a total.
#[inline(always)]
pub(crate) fn add_to(total: &mut Seen<i128>, number: i128)
    requires { total_size total.old + unsigned_abs number < 2 ^ 127 }
    ensures total { total.new ≡ both ◌+ℤ◌ total.old (Known number) }
    ensures size { total_size total.new ≤ total_size total.old + unsigned_abs number }
{
    match total {
        Seen::Known(sum) => *sum += number,
        Seen::Nothing => *total = Seen::Known(number),
        Seen::Unknown => {}
    }
}

/// Returns the total of a statistic that has values.
pub(crate) fn total_of(sum: Option<i64>) -> Seen<i128>
    ensures total { result ≡ seen_of sum }
    ensures size { total_size result ≤ 2 ^ 64 }
{
    match sum {
        Some(total) => Seen::Known(i128::from(total)),
        None => Seen::Unknown,
    }
}

/// Returns the total, if it is known and fits 64 bits with the sign.
pub(crate) fn in_64(total: Seen<i128>) -> Option<i64>
    ensures { result ≡ option_and_then fit (known_of total) }
{
    match total {
        Seen::Known(sum) => i64::try_from(sum).ok(),
        Seen::Nothing | Seen::Unknown => None,
    }
}

/// Returns the number of both together.
pub(crate) fn more(one: Seen<u128>, other: Seen<u128>) -> Seen<u128>
    requires { count_size one + count_size other < 2 ^ 127 }
    ensures total { result ≡ both ◌+◌ one other }
    ensures size { count_size result ≤ count_size one + count_size other }
{
    match (one, other) {
        (Seen::Nothing, part) | (part, Seen::Nothing) => part,
        (Seen::Known(x), Seen::Known(y)) => Seen::Known(x + y),
        _ => Seen::Unknown,
    }
}

/// Adds to a number.
#[inline(always)]
pub(crate) fn count_to(total: &mut Seen<u128>, number: u64)
    requires { count_size total.old + number < 2 ^ 127 }
    ensures total { total.new ≡ both ◌+◌ total.old (Known number) }
    ensures size { count_size total.new ≤ count_size total.old + number }
{
    match total {
        Seen::Known(sum) => *sum += u128::from(number),
        Seen::Nothing => *total = Seen::Known(u128::from(number)),
        Seen::Unknown => {}
    }
}

/// Returns the number of a statistic that has values.
pub(crate) fn number_of(number: Option<u64>) -> Seen<u128>
    ensures total { result ≡ seen_of number }
    ensures size { count_size result ≤ 2 ^ 64 }
{
    match number {
        Some(number) => Seen::Known(u128::from(number)),
        None => Seen::Unknown,
    }
}

/// Returns the number, if it is known and at most 2^62.
pub(crate) fn in_limit(number: Seen<u128>) -> Option<u64>
    ensures { result ≡ option_and_then limit (known_of number) }
{
    match number {
        Seen::Known(number) if number <= 1 << 62 => u64::try_from(number).ok(),
        _ => None,
    }
}

/// Returns the number, if it is known and has at most 64 bits.
pub(crate) fn in_u64(number: Seen<u128>) -> Option<u64>
    ensures { result ≡ option_and_then room (known_of number) }
{
    match number {
        Seen::Known(number) => u64::try_from(number).ok(),
        Seen::Nothing | Seen::Unknown => None,
    }
}
