//! Where the groups of a column's cells begin.
ghost use Rattle.std.specs.Prelude.{◌≡◌};
ghost use Rattle.orc_row_groups.specs.Bounds.{bound_at};

/// Returns where a group begins: at its bound, or at the end of the cells.
pub(crate) fn bound_of(bounds: &[usize], group: usize, count: usize) -> usize
    ensures { result ≡ bound_at count bounds.now group }
{
    match bounds.get(group) {
        Some(start) => *start,
        None => count,
    }
}
