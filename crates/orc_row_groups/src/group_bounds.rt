//! Where groups of a column's cells begin and end.
ghost use Rattle.std.specs.Prelude.{◌≡◌, ◌<◌, ◌+◌, length};
ghost use Rattle.orc_row_groups.specs.Bounds.{bound_at};

/// Returns where a group begins: at its bound, or at the end of the cells.
pub fn group_start(bounds: &[usize], group: usize, count: usize) -> usize
    // The returned number is the bound of `group`, or `count` if there is no such group.
    ensures { result ≡ bound_at count bounds.now group }
{
    match bounds.get(group) {
        Some(start) => *start,
        None => count,
    }
}

/// Returns where a group ends: at the next group's bound, or at the end of the cells.
pub fn group_end(bounds: &[usize], group: usize, count: usize) -> usize
    requires { group < length bounds.now }
    // If `group` is below the number of bounds, then the returned number is the bound of the next group, or `count`
    // if `group` is the last.
    ensures { result ≡ bound_at count bounds.now (group + 1) }
{
    group_start(bounds, group + 1, count)
}
