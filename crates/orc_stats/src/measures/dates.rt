//! DATE: the least and the greatest.
use crate::fault::StatFault;
use crate::measures::{Measures, Sizes};
use crate::seen::Seen;
use crate::stat::Body;
use orc_values::Own;
use std::alloc::Global;

/// Measures of dates: the least and the greatest.
#[derive(Clone, Copy, Debug)]
pub struct Dates {
    least: Seen<i32>,
    greatest: Seen<i32>,
}

impl Sizes for Dates {
    ghost size = { λ _. 0 };
}

impl<'r> Measures<'r> for Dates {
    ghost use Rattle.std.specs.Prelude.{ℤ};
    ghost use Rattle.orc_stats.specs.declared.seen.Seen.{Seen};
    ghost use Rattle.orc_stats.specs.declared.kind.StatKind.TheVariants as kind_name;
    ghost use Rattle.orc_stats.specs.Measures as tally;
    ghost use Rattle.orc_stats.specs.laws.OwnCells.{dates_childless};
    ghost use Rattle.orc_stats.specs.laws.TallyKinds.{dates_cells, dates_stats};

    ghost Parts = { Seen ℤ × Seen ℤ };

    ghost measure = { tally.dates };

    ghost parts = { λ p. (p.least, p.greatest) };

    ghost kind = { kind_name.Dates };

    ghost TakesMemory = { ⊥ };

    fn none() -> Dates {
        Dates {
            least: Seen::Nothing,
            greatest: Seen::Nothing,
        }
    }

    fn add_own(&mut self, own: Own<'r>) {
        if let Own::Date(day) = own {
            self.least.keep_least(day);
            self.greatest.keep_greatest(day);
        }
    }

    fn of_body(body: &'r Body) -> Dates {
        let Body::Dates { least, greatest } = body else {
            return Dates::none();
        };
        Dates {
            least: Seen::of(*least),
            greatest: Seen::of(*greatest),
        }
    }

    fn join(&self, other: &Dates) -> Dates {
        Dates {
            least: self.least.least(other.least),
            greatest: self.greatest.greatest(other.greatest),
        }
    }

    fn body(&self, _alloc: Global) -> Result<Body, StatFault> {
        Ok(Body::Dates {
            least: self.least.known(),
            greatest: self.greatest.known(),
        })
    }

    ghost childless_kept = { dates_childless };

    ghost cells_are = { λ cells _. dates_cells cells };

    ghost stats_are = { dates_stats };
}
