//! Slices of cells that are lent.
ghost use Rattle.std.specs.Prelude.{◌≡◌, IfOk, IfErr};
ghost use Rattle.orc_values.specs.Views.{lent_views};
ghost use Rattle.orc_values.specs.Lent.{lent_cells};
ghost use Rattle.orc_trees.specs.declared.fault.TypeFault.TheVariants.{OutOfMemory};

use crate::fault::TypeFault;
use orc_values::{Lent, Row};
use std::alloc::Global;

/// The same cells, so that a slice of them can be lent.
///
/// Refusal: `OutOfMemory`.
pub fn lend<'r, 'a>(alloc: Global, cells: Vec<&'r Row<'a>>) -> Result<Vec<Lent<'r, 'a>>, TypeFault>
    // Unless memory is refused, the slice shows the same cells, in order.
    ensures found { IfOk result (λ lent. lent_cells lent.items ≡ lent_views cells.entry.items) }
    // The one refusal is want of memory.
    ensures fault { IfErr result (λ fault. fault ≡ OutOfMemory) }
{
    let mut lent = Vec::new(alloc);
    for cell in cells {
        lent.push(Lent(cell))?;
    }
    Ok(lent)
}
