//! The bold rule as code, for the statistic of one column.
ghost use Rattle.std.specs.Prelude.{◌≡◌, nat_lt, nat_le, Some, true, false, ◌&&◌, if◌then◌else◌};
ghost use Rattle.orc_values.specs.Cells.{bool, int, date, text};
ghost use Rattle.std.specs.Option.{option_and_then, option_map_or};
ghost use Rattle.std.specs.Ordering.{ordering_index};
ghost use Rattle.orc_skipping.specs.Predicates.{order};
ghost use Rattle.orc_skipping.specs.Rules as spec;
ghost use Rattle.orc_skipping.specs.Rules.{least_in, greatest_in, is_wanted, bold, lacks_bound};
ghost use Rattle.orc_skipping.specs.Tests.{atom_of, takes as orders_taken, predicate};

use crate::test_of_column::{Comparison, Constant, Test};
use orc_stats::{Body, Stat};
use std::cmp::Ordering;

/// Returns whether the bold rule keeps the rows of a column that has this statistic. If it doesn't,
/// none of them passes the test, provided that the statistic is right and lacks nothing.
pub fn keeps(told: &Stat, test: &Test) -> bool
    // The answer is true exactly if the bold rule keeps the rows.
    ensures { result ≡ bold (λ _. Some told.now) (predicate test.now) }
{
    may_be(values_taken(told), null_taken(told), &told.body, test, true)
}

/// How many values the bold rule takes a statistic to count: none if it lacks its least or greatest.
fn values_taken(told: &Stat) -> u64
    ensures { result ≡ (if lacks_bound told.now.body then 0 else told.now.count) }
{
    if is_without_bound(&told.body) {
        0
    } else {
        told.count
    }
}

/// Whether the bold rule takes a statistic to count a null: not if that is unknown.
fn null_taken(told: &Stat) -> bool
    ensures { result ≡ option_map_or (λ n. n) told.now.nulls false }
{
    match told.nulls {
        Some(nulls) => nulls,
        None => false,
    }
}

/// Whether a statistic of numbers, dates or texts has no least value, or no greatest.
fn is_without_bound(body: &Body) -> bool
    ensures { result ≡ lacks_bound body.now }
{
    match body {
        Body::Ints {
            least,
            greatest,
            ..
        } => least.is_none() || greatest.is_none(),
        Body::Dates { least, greatest } => least.is_none() || greatest.is_none(),
        Body::Texts {
            least,
            greatest,
            ..
        } => least.is_none() || greatest.is_none(),
        _ => false,
    }
}

/// Whether a cell may make the test true, or false, as wanted.
#[cycle(may_be)]
fn may_be(count: u64, nulls: bool, body: &Body, test: &Test, wanted: bool) -> bool
    ensures { result
        ≡ spec.may_be (λ _. Some (record { count = count; nulls = Some nulls; body = body.now }))
        (predicate test.now) wanted }
{
    match test {
        Test::Compare(comparison, constant) => {
            count > 0 && may_compare(count, body, *comparison, constant, wanted)
        }
        Test::IsNull => { if wanted { nulls } else { count > 0 } }
        Test::Not(negated) => may_be(count, nulls, body, negated, !wanted),
        Test::Both(first, second) => {
            if wanted {
                may_be(count, nulls, body, first, true) && may_be(count, nulls, body, second, true)
            } else {
                may_be(count, nulls, body, first, false)
                    || may_be(count, nulls, body, second, false)
            }
        }
        Test::Either(first, second) => {
            if wanted {
                may_be(count, nulls, body, first, true) || may_be(count, nulls, body, second, true)
            } else {
                may_be(count, nulls, body, first, false)
                    && may_be(count, nulls, body, second, false)
            }
        }
    }
}

/// Whether one of the values, if there are any, may make a comparison true, or false, as wanted.
fn may_compare(
    count: u64,
    body: &Body,
    comparison: Comparison,
    constant: &Constant,
    wanted: bool,
) -> bool
    ensures { (nat_lt 0 count && result)
        ≡ spec.may_compare (orders_taken comparison) (atom_of constant.now) wanted
        (record { count = count; nulls = Some true; body = body.now }) }
{
    let low = order_of_least(count, body, constant);
    let high = order_of_greatest(body, constant);
    may_be_at(low, high, comparison, wanted, Ordering::Less)
        || may_be_at(low, high, comparison, wanted, Ordering::Equal)
        || may_be_at(low, high, comparison, wanted, Ordering::Greater)
}

/// How the least value compares with a constant, if it is known.
fn order_of_least(count: u64, body: &Body, constant: &Constant) -> Option<Ordering>
    ensures { result ≡ option_and_then (λ l. order l (atom_of constant.now)) (least_in count body.now) }
{
    match body {
        Body::Ints {
            least: Some(least),
            ..
        } => order_of_int(*least, constant),
        Body::Dates {
            least: Some(least),
            ..
        } => order_of_date(*least, constant),
        Body::Texts {
            least: Some(least),
            ..
        } => order_of_text(least.as_slice(), constant),
        Body::Bools { trues: Some(trues) } => order_of_bool(count <= *trues, constant),
        _ => None,
    }
}

/// How the greatest value compares with a constant, if it is known.
fn order_of_greatest(body: &Body, constant: &Constant) -> Option<Ordering>
    ensures { result ≡ option_and_then (λ g. order g (atom_of constant.now)) (greatest_in body.now) }
{
    match body {
        Body::Ints {
            greatest: Some(greatest),
            ..
        } => order_of_int(*greatest, constant),
        Body::Dates {
            greatest: Some(greatest),
            ..
        } => order_of_date(*greatest, constant),
        Body::Texts {
            greatest: Some(greatest),
            ..
        } => order_of_text(greatest.as_slice(), constant),
        Body::Bools { trues: Some(trues) } => order_of_bool(*trues > 0, constant),
        _ => None,
    }
}

/// How a number compares with a constant, if that is a number.
fn order_of_int(value: i64, constant: &Constant) -> Option<Ordering>
    ensures { result ≡ order (int value) (atom_of constant.now) }
{
    match constant {
        Constant::Int(other) => Some(value.cmp(other)),
        _ => None,
    }
}

/// How a date compares with a constant, if that is a date.
fn order_of_date(value: i32, constant: &Constant) -> Option<Ordering>
    ensures { result ≡ order (date value) (atom_of constant.now) }
{
    match constant {
        Constant::Date(other) => Some(value.cmp(other)),
        _ => None,
    }
}

/// How a boolean compares with a constant, if that is a boolean.
fn order_of_bool(value: bool, constant: &Constant) -> Option<Ordering>
    ensures { result ≡ order (bool value) (atom_of constant.now) }
{
    match constant {
        Constant::Bool(other) => Some(u8::from(value).cmp(&u8::from(*other))),
        _ => None,
    }
}

/// How a text compares with a constant, if that is a text.
fn order_of_text(value: &[u8], constant: &Constant) -> Option<Ordering>
    ensures { result ≡ order (text value.now) (atom_of constant.now) }
{
    match constant {
        Constant::Text(other) => Some(value.cmp(other.as_slice())),
        _ => None,
    }
}

/// Whether a value may have this order to a constant, by those of the least and the greatest, and
/// with it makes a comparison true, or false, as wanted.
fn may_be_at(
    low: Option<Ordering>,
    high: Option<Ordering>,
    comparison: Comparison,
    wanted: bool,
    at: Ordering,
) -> bool
    ensures { result
        ≡ (option_map_or (λ r. nat_le (ordering_index r) (ordering_index at)) low true
        && option_map_or (λ r. nat_le (ordering_index at) (ordering_index r)) high true
        && is_wanted wanted (orders_taken comparison at)) }
{
    let is_above_low = match low {
        Some(low) => low <= at,
        None => true,
    };
    let is_below_high = match high {
        Some(high) => at <= high,
        None => true,
    };
    is_above_low && is_below_high && takes(comparison, at) == wanted
}

/// Whether a comparison takes an order.
fn takes(comparison: Comparison, order: Ordering) -> bool
    ensures { result ≡ orders_taken comparison order }
{
    match comparison {
        Comparison::Equal => order.is_eq(),
        Comparison::Below => order.is_lt(),
        Comparison::AtMost => order.is_le(),
    }
}
