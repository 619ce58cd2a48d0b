//! STRUCT: only what every column has.
use crate::fault::StatFault;
use crate::measures::{Measures, Sizes};
use crate::stat::Body;
use orc_values::Own;
use std::alloc::Global;

/// Measures of structs: none.
#[derive(Clone, Copy, Debug)]
pub struct Plain;

impl Sizes for Plain {
    ghost size = { λ _. 0 };
}

impl<'r> Measures<'r> for Plain {
    ghost use Rattle.orc_stats.specs.declared.kind.StatKind.TheVariants as kind_name;
    ghost use Rattle.orc_stats.specs.Measures as tally;
    ghost use Rattle.orc_stats.specs.laws.OwnCells.{plain_childless};
    ghost use Rattle.orc_stats.specs.laws.TallyKinds.{plain_cells, plain_stats};

    ghost Parts = { Unit {0} };

    ghost measure = { tally.no_measure };

    ghost parts = { λ p. tt };

    ghost kind = { kind_name.Plain };

    ghost TakesMemory = { ⊥ };

    fn none() -> Plain {
        Plain
    }

    fn add_own(&mut self, _own: Own<'r>) {}

    fn of_body(_body: &'r Body) -> Plain {
        Plain
    }

    fn join(&self, _other: &Plain) -> Plain {
        Plain
    }

    fn body(&self, _alloc: Global) -> Result<Body, StatFault> {
        Ok(Body::Plain)
    }

    ghost childless_kept = { plain_childless };

    ghost cells_are = { λ cells _. plain_cells cells };

    ghost stats_are = { plain_stats };
}
