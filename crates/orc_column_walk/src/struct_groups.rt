//! A column of structs, whose groups are counted from its marks alone, without a step for each cell.
ghost use Rattle.std.specs.Prelude.{◌≡◌, ◌<◌, ℕ, Some, nat_lt, List, replicate, IfOk};
ghost use Rattle.orc_values.specs.Cells.{Cell};
ghost use Rattle.orc_values.specs.Childless.{childless_struct};
ghost use Rattle.orc_values.specs.Shapes.{Fields, struct_of};
ghost use Rattle.orc_values.specs.Limits.{cell_limit};
ghost use Rattle.orc_row_groups.specs.Bounds.{AreBounds};
ghost use Rattle.orc_stats.specs.declared.stat.Body.TheVariants.{Plain};
ghost use Rattle.orc_column_walk.specs.ColumnFound.{IsColumnFound};
ghost use Rattle.orc_column_walk.specs.Passed.{HavePassedValues, AreValueBounds};

use crate::bounds::bound_of;
use crate::found::{ColumnFound, GroupFound};
use crate::marks::ValueBounds;
use orc_row_groups::Counts;
use orc_stats::{Body, Stat};
use std::alloc::{AllocError, Global};

/// Returns the statistic of `cells` cells, of which `values` are structs and the others null.
fn struct_stat(cells: usize, values: usize) -> Stat
    ensures count { result.count ≡ values }
    ensures nulls { result.nulls ≡ Some (nat_lt values cells) }
    ensures body { result.body ≡ Plain }
{
    Stat {
        count: values as u64,
        nulls: Some(values < cells),
        body: Body::Plain,
    }
}

/// Returns what is found about a column of structs and nulls. `bounds` are how many of the cells come before each
/// group, and `marked` has how many of the structs.
pub(crate) fn find_structs(
    alloc: Global,
    count: usize,
    bounds: &[usize],
    marked: ValueBounds,
) -> Result<ColumnFound, AllocError>
    requires few { count < cell_limit }
    requires bounds { AreBounds count bounds.now }
    requires values { AreValueBounds count bounds.now marked.values marked.before.items }
    ensures { IfOk result (λ found. (cells : List Cell) (fields : Fields) (order : List ℕ)
        → HavePassedValues count bounds.now marked.before.items (replicate marked.values childless_struct) cells
        → IsColumnFound (struct_of fields order) cells bounds.now found) }
{
    let mut groups = Vec::new(alloc);
    for group in 0..bounds.len() {
        let start = bound_of(bounds, group, count);
        let first = bound_of(&marked.before, group, marked.values);
        let cells = bound_of(bounds, group + 1, count) - start;
        let values = bound_of(&marked.before, group + 1, marked.values) - first;
        groups.push(GroupFound {
            stat: struct_stat(cells, values),
            before: Counts {
                cells: start,
                values: first,
                octets: 0,
            },
        })?;
    }
    Ok(ColumnFound {
        stat: struct_stat(count, marked.values),
        groups,
        below: marked.values,
        bounds_below: marked.before,
    })
}
