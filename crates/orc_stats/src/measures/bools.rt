//! BOOLEAN: how many are true.
use crate::fault::StatFault;
use crate::measures::{Measures, Sizes};
use crate::seen::Seen;
use crate::stat::Body;
use crate::totals::{count_to, in_limit, more, number_of};
use orc_values::Own;
use std::alloc::Global;

/// Measures of truth values: how many are true.
#[derive(Clone, Copy, Debug)]
pub struct Bools {
    trues: Seen<u128>,
}

impl Sizes for Bools {
    ghost use Rattle.orc_stats.specs.Sizes.{count_size};

    ghost size = { λ p. count_size p.trues };
}

impl<'r> Measures<'r> for Bools {
    ghost use Rattle.std.specs.Prelude.{ℕ};
    ghost use Rattle.orc_stats.specs.declared.seen.Seen.{Seen};
    ghost use Rattle.orc_stats.specs.declared.kind.StatKind.TheVariants as kind_name;
    ghost use Rattle.orc_stats.specs.Measures as tally;
    ghost use Rattle.orc_stats.specs.laws.OwnCells.{bools_childless};
    ghost use Rattle.orc_stats.specs.laws.TallyKinds.{bools_cells, bools_stats};

    ghost Parts = { Seen ℕ };

    ghost measure = { tally.bools };

    ghost parts = { λ p. p.trues };

    ghost kind = { kind_name.Bools };

    ghost TakesMemory = { ⊥ };

    fn none() -> Bools {
        Bools {
            trues: Seen::Nothing,
        }
    }

    fn add_own(&mut self, own: Own<'r>) {
        if let Own::Bool(truth) = own {
            count_to(&mut self.trues, u64::from(truth));
        }
    }

    fn of_body(body: &'r Body) -> Bools {
        let Body::Bools { trues } = body else {
            return Bools::none();
        };
        Bools {
            trues: number_of(*trues),
        }
    }

    fn join(&self, other: &Bools) -> Bools {
        Bools {
            trues: more(self.trues, other.trues),
        }
    }

    fn body(&self, _alloc: Global) -> Result<Body, StatFault> {
        Ok(Body::Bools {
            trues: in_limit(self.trues),
        })
    }

    ghost childless_kept = { bools_childless };

    ghost cells_are = { λ cells most. bools_cells cells most };

    ghost stats_are = { bools_stats };
}
