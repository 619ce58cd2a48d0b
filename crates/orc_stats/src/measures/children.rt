//! LIST and MAP: the least and the greatest number of children, and their total.
use crate::fault::StatFault;
use crate::measures::{Measures, Sizes};
use crate::seen::Seen;
use crate::stat::Body;
use crate::totals::{count_to, in_u64, more, number_of};
use orc_values::Own;
use std::alloc::Global;

/// Measures of lists and maps: the least and the greatest number of children, and the total of these numbers. The
/// children of a map are its pairs.
#[derive(Clone, Copy, Debug)]
pub struct Children {
    least: Seen<u64>,
    greatest: Seen<u64>,
    total: Seen<u128>,
}

impl Sizes for Children {
    ghost use Rattle.orc_stats.specs.Sizes.{count_size};

    ghost size = { λ p. count_size p.total };
}

impl<'r> Measures<'r> for Children {
    ghost use Rattle.std.specs.Prelude.{ℕ};
    ghost use Rattle.orc_stats.specs.declared.seen.Seen.{Seen};
    ghost use Rattle.orc_stats.specs.declared.kind.StatKind.TheVariants as kind_name;
    ghost use Rattle.orc_stats.specs.Measures as tally;
    ghost use Rattle.orc_stats.specs.laws.OwnCells.{children_childless};
    ghost use Rattle.orc_stats.specs.laws.TallyKinds.{children_cells, children_stats};

    ghost Parts = { Seen ℕ × (Seen ℕ × Seen ℕ) };

    ghost measure = { tally.child_numbers };

    ghost parts = { λ p. (p.least, (p.greatest, p.total)) };

    ghost kind = { kind_name.Children };

    ghost TakesMemory = { ⊥ };

    fn none() -> Children {
        Children {
            least: Seen::Nothing,
            greatest: Seen::Nothing,
            total: Seen::Nothing,
        }
    }

    fn add_own(&mut self, own: Own<'r>) {
        if let Own::List(count) | Own::Map(count) = own {
            self.least.keep_least(count);
            self.greatest.keep_greatest(count);
            count_to(&mut self.total, count);
        }
    }

    fn of_body(body: &'r Body) -> Children {
        let Body::Children {
            least,
            greatest,
            total,
        } = body
        else {
            return Children::none();
        };
        Children {
            least: Seen::of(*least),
            greatest: Seen::of(*greatest),
            total: number_of(*total),
        }
    }

    fn join(&self, other: &Children) -> Children {
        Children {
            least: self.least.least(other.least),
            greatest: self.greatest.greatest(other.greatest),
            total: more(self.total, other.total),
        }
    }

    fn body(&self, _alloc: Global) -> Result<Body, StatFault> {
        Ok(Body::Children {
            least: self.least.known(),
            greatest: self.greatest.known(),
            total: in_u64(self.total),
        })
    }

    ghost childless_kept = { children_childless };

    ghost cells_are = { λ cells _. children_cells cells };

    ghost stats_are = { children_stats };
}
