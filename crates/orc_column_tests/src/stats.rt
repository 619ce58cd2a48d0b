//! The statistic of cells, a tally of cells and of statistics, and the texts of faults.
ghost use Rattle.std.specs.Prelude.{◌≡◌, true};
ghost use Rattle.orc_stats.specs.Kinds.{body_is_of};
ghost use Rattle.orc_stats.specs.declared.kind.StatKind.TheVariants as kind;

use orc_stats::{Body, Counted, Ints, Stat, StatFault, StatKind, Tally, of_cells};
use orc_values::{Lent, Row, Value};
use std::alloc::{AllocError, Global};

/// A statistic of one integer.
fn one(value: i64) -> Stat
    ensures kind { body_is_of kind.Ints result.body ≡ true }
    ensures count { result.count ≡ 1 }
{
    Stat {
        count: 1,
        nulls: Some(false),
        body: Body::Ints {
            least: Some(value),
            greatest: Some(value),
            sum: Some(value),
        },
    }
}

/// Whether the statistic is that of a seven and a nine.
fn are_both(answer: &Result<Stat, StatFault>) -> bool {
    match answer {
        Ok(
            Stat {
                count,
                nulls,
                body: Body::Ints {
                    least,
                    greatest,
                    sum,
                },
            },
        ) => {
            *count == 2
                && *nulls == Some(false)
                && *least == Some(7)
                && *greatest == Some(9)
                && *sum == Some(16)
        }
        _ => false,
    }
}

#[test]
fn a_cell_and_a_statistic_in_one_tally(rt: HostRuntime) {
    let seven: Row<'_> = Some(Value::Int(7));
    let nine = one(9);
    let mut tally = Counted::<Ints>::unit();
    tally.add(&seven);
    tally.join(&Counted::<Ints>::of_stat(&nine));
    assert!(&rt; are_both(&tally.close(rt.alloc())));
}

#[test]
fn the_statistic_of_cells(rt: HostRuntime) {
    let seven: Row<'_> = Some(Value::Int(7));
    let nine: Row<'_> = Some(Value::Int(9));
    let cells = [Lent(&seven), Lent(&nine)];
    assert!(&rt; are_both(&of_cells(rt.alloc(), StatKind::Ints, &cells)));
    assert!(&rt; are_both(&Counted::<Ints>::of_cells(rt.alloc(), &cells)));
}

/// Whether a fault has this text.
fn is_shown(alloc: Global, fault: StatFault, text: &str) -> Result<bool, AllocError> {
    let shown = format!(in alloc; "{fault}")?;
    Ok(shown.as_str() == text)
}

#[test]
fn fault_texts(rt: HostRuntime) {
    let alloc = rt.alloc();
    assert!(&rt; is_shown(alloc, StatFault::CountTooLarge, "stat 1 CountTooLarge") == Ok(true));
    assert!(&rt; is_shown(alloc, StatFault::OutOfMemory, "stat 2 OutOfMemory") == Ok(true));
}
