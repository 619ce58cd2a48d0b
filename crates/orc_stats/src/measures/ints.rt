//! BYTE, SHORT, INT and LONG: the least, the greatest and the sum.
use crate::fault::StatFault;
use crate::measures::{Measures, Sizes};
use crate::seen::Seen;
use crate::stat::Body;
use crate::totals::{add_to, in_64, plus, total_of};
use orc_values::Own;
use std::alloc::Global;

/// Measures of integers: the least, the greatest and the sum.
#[derive(Clone, Copy, Debug)]
pub struct Ints {
    least: Seen<i64>,
    greatest: Seen<i64>,
    sum: Seen<i128>,
}

impl Sizes for Ints {
    ghost use Rattle.orc_stats.specs.Sizes.{total_size};

    ghost size = { λ p. total_size p.sum };
}

impl<'r> Measures<'r> for Ints {
    ghost use Rattle.std.specs.Prelude.{ℤ};
    ghost use Rattle.orc_stats.specs.declared.kind.StatKind.TheVariants as kind_name;
    ghost use Rattle.orc_stats.specs.declared.seen.Seen.{Seen};
    ghost use Rattle.orc_stats.specs.Measures as tally;
    ghost use Rattle.orc_stats.specs.laws.OwnCells.{ints_childless};
    ghost use Rattle.orc_stats.specs.laws.TallyKinds.{ints_cells, ints_stats};

    ghost Parts = { Seen ℤ × (Seen ℤ × Seen ℤ) };

    ghost measure = { tally.ints };

    ghost parts = { λ p. (p.least, (p.greatest, p.sum)) };

    ghost kind = { kind_name.Ints };

    ghost TakesMemory = { ⊥ };

    fn none() -> Ints {
        Ints {
            least: Seen::Nothing,
            greatest: Seen::Nothing,
            sum: Seen::Nothing,
        }
    }

    #[inline(always)]
    fn add_own(&mut self, own: Own<'r>) {
        if let Own::Int(number) = own {
            self.least.keep_least(number);
            self.greatest.keep_greatest(number);
            add_to(&mut self.sum, i128::from(number));
        }
    }

    fn of_body(body: &'r Body) -> Ints {
        let Body::Ints {
            least,
            greatest,
            sum,
        } = body
        else {
            return Ints::none();
        };
        Ints {
            least: Seen::of(*least),
            greatest: Seen::of(*greatest),
            sum: total_of(*sum),
        }
    }

    fn join(&self, other: &Ints) -> Ints {
        Ints {
            least: self.least.least(other.least),
            greatest: self.greatest.greatest(other.greatest),
            sum: plus(self.sum, other.sum),
        }
    }

    fn body(&self, _alloc: Global) -> Result<Body, StatFault> {
        Ok(Body::Ints {
            least: self.least.known(),
            greatest: self.greatest.known(),
            sum: in_64(self.sum),
        })
    }

    ghost childless_kept = { ints_childless };

    ghost cells_are = { λ cells _. ints_cells cells };

    ghost stats_are = { ints_stats };
}
