//! The row with which each group begins.
ghost use Rattle.std.specs.Prelude.{◌≡◌, ◌<◌, IfOk};
ghost use Rattle.orc_row_groups.specs.Groups.{starts_of_groups};

use std::alloc::{AllocError, Global};

/// Returns how many rows come before each group: a group begins every `stride` rows (ORC specification, "Row Group
/// Index").
///
/// # Errors
///
/// `AllocError`, if there is no memory.
pub fn group_starts(alloc: Global, stride: usize, rows: usize) -> Result<Vec<usize>, AllocError>
    requires { 0 < stride }
    // If `stride` is above 0, then the returned numbers are the multiples of `stride` below `rows`, in order, which
    // is how many rows come before each group.
    ensures { IfOk result (λ found. found.items ≡ starts_of_groups stride rows) }
{
    let mut found = Vec::new(alloc);
    for group in 0..rows.div_ceil(stride) {
        found.push(group * stride)?;
    }
    Ok(found)
}
