//! BINARY: the sum of the lengths.
use crate::fault::StatFault;
use crate::measures::{Measures, Sizes};
use crate::seen::Seen;
use crate::stat::Body;
use crate::totals::{add_to, in_64, plus, total_of};
use orc_values::Own;
use std::alloc::Global;

/// Measures of byte strings: the sum of their lengths.
#[derive(Clone, Copy, Debug)]
pub struct Bins {
    sum: Seen<i128>,
}

impl Sizes for Bins {
    ghost use Rattle.orc_stats.specs.Sizes.{total_size};

    ghost size = { λ p. total_size p.sum };
}

impl<'r> Measures<'r> for Bins {
    ghost use Rattle.std.specs.Prelude.{ℤ};
    ghost use Rattle.orc_stats.specs.declared.seen.Seen.{Seen};
    ghost use Rattle.orc_stats.specs.declared.kind.StatKind.TheVariants as kind_name;
    ghost use Rattle.orc_stats.specs.Measures as tally;
    ghost use Rattle.orc_stats.specs.laws.OwnCells.{bins_childless};
    ghost use Rattle.orc_stats.specs.laws.TallyKinds.{bins_cells, bins_stats};

    ghost Parts = { Seen ℤ };

    ghost measure = { tally.bins };

    ghost parts = { λ p. p.sum };

    ghost kind = { kind_name.Bins };

    ghost TakesMemory = { ⊥ };

    fn none() -> Bins {
        Bins { sum: Seen::Nothing }
    }

    fn add_own(&mut self, own: Own<'r>) {
        if let Own::Bytes(bytes) = own {
            add_to(&mut self.sum, bytes.len() as i128);
        }
    }

    fn of_body(body: &'r Body) -> Bins {
        let Body::Bins { sum } = body else {
            return Bins::none();
        };
        Bins {
            sum: total_of(*sum),
        }
    }

    fn join(&self, other: &Bins) -> Bins {
        Bins {
            sum: plus(self.sum, other.sum),
        }
    }

    fn body(&self, _alloc: Global) -> Result<Body, StatFault> {
        Ok(Body::Bins {
            sum: in_64(self.sum),
        })
    }

    ghost childless_kept = { bins_childless };

    ghost cells_are = { λ cells _. bins_cells cells };

    ghost stats_are = { bins_stats };
}
