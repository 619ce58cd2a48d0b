//! The bounds of groups, one level down in the schema.
ghost use Rattle.std.specs.Prelude.{◌≡◌, ◌<◌, ◌^◌, map, length, IfOk};
ghost use Rattle.std.specs.List.{flat_map};
ghost use Rattle.orc_values.specs.Cells.{parts, pairs_in, values};
ghost use Rattle.orc_values.specs.Own.{own_cell};
ghost use Rattle.orc_row_groups.specs.Bounds.{AreBounds, elements_before, pairs_before, values_before};
ghost use Rattle.orc_row_groups.specs.OwnCells.{own_cells};

use crate::between::owns_between;
use orc_values::Own;
use std::alloc::{AllocError, Global};

/// Returns how many elements a list has; any other cell has none.
fn element_count(own: Own<'_>) -> usize
    ensures { result ≡ length (parts (own_cell own.entry)) }
{
    match own {
        Own::List(size) => size as usize,
        _ => 0,
    }
}

/// Returns how many elements the lists among the cells have.
fn count_elements(owns: &[Own<'_>]) -> usize
    requires { length (flat_map parts (values (own_cells owns.now))) < 2 ^ 64 }
    ensures { result ≡ length (flat_map parts (values (own_cells owns.now))) }
{
    let mut count = 0;
    for own in owns {
        count += element_count(*own);
    }
    count
}

/// Returns how many pairs a map has; any other cell has none.
fn pair_count(own: Own<'_>) -> usize
    ensures { result ≡ length (pairs_in (own_cell own.entry)) }
{
    match own {
        Own::Map(size) => size as usize,
        _ => 0,
    }
}

/// Returns how many pairs the maps among the cells have.
fn count_pairs(owns: &[Own<'_>]) -> usize
    requires { length (flat_map pairs_in (values (own_cells owns.now))) < 2 ^ 64 }
    ensures { result ≡ length (flat_map pairs_in (values (own_cells owns.now))) }
{
    let mut count = 0;
    for own in owns {
        count += pair_count(*own);
    }
    count
}

/// Returns how many of the cells are not null.
fn count_values(owns: &[Own<'_>]) -> usize
    ensures { result ≡ length (values (own_cells owns.now)) }
{
    let mut count = 0;
    for own in owns {
        if !own.is_null() {
            count += 1;
        }
    }
    count
}

/// Returns the bounds of the same groups in the column of a list's elements: for each group, how many elements the
/// lists before it have (ORC specification, "Column Encodings"). The cells are given without their children.
///
/// # Errors
///
/// `AllocError`, if there is no memory.
pub fn element_bounds(
    alloc: Global,
    owns: &[Own<'_>],
    bounds: &[usize],
) -> Result<Vec<usize>, AllocError>
    requires bounds { AreBounds (length (own_cells owns.now)) bounds.now }
    requires few { length (flat_map parts (values (own_cells owns.now))) < 2 ^ 64 }
    // If no bound is below the one before it or above the number of cells, and the lists among the cells have fewer
    // than 2^64 elements in all, then a returned bound is, for each of `bounds` in order, how many elements the lists
    // among the cells before it have.
    ensures { IfOk result (λ found. found.items ≡ map (elements_before (own_cells owns.now)) bounds.now) }
{
    let mut found = Vec::new(alloc);
    let mut count = 0;
    let mut at = 0;
    for bound in bounds {
        count += count_elements(owns_between(owns, at, *bound));
        found.push(count)?;
        at = *bound;
    }
    Ok(found)
}

/// Returns the bounds of the same groups in the columns of a map's keys and values: for each group, how many pairs
/// the maps before it have (ORC specification, "Column Encodings"). The cells are given without their children.
///
/// # Errors
///
/// `AllocError`, if there is no memory.
pub fn pair_bounds(
    alloc: Global,
    owns: &[Own<'_>],
    bounds: &[usize],
) -> Result<Vec<usize>, AllocError>
    requires bounds { AreBounds (length (own_cells owns.now)) bounds.now }
    requires few { length (flat_map pairs_in (values (own_cells owns.now))) < 2 ^ 64 }
    // If no bound is below the one before it or above the number of cells, and the maps among the cells have fewer
    // than 2^64 pairs in all, then a returned bound is, for each of `bounds` in order, how many pairs the maps among
    // the cells before it have.
    ensures { IfOk result (λ found. found.items ≡ map (pairs_before (own_cells owns.now)) bounds.now) }
{
    let mut found = Vec::new(alloc);
    let mut count = 0;
    let mut at = 0;
    for bound in bounds {
        count += count_pairs(owns_between(owns, at, *bound));
        found.push(count)?;
        at = *bound;
    }
    Ok(found)
}

/// Returns the bounds of the same groups in the column of a struct's field: for each group, how many structs before
/// it are not null (ORC specification, "Column Encodings"). The cells are given without their children.
///
/// # Errors
///
/// `AllocError`, if there is no memory.
pub fn field_bounds(
    alloc: Global,
    owns: &[Own<'_>],
    bounds: &[usize],
) -> Result<Vec<usize>, AllocError>
    requires { AreBounds (length (own_cells owns.now)) bounds.now }
    // If no bound is below the one before it or above the number of cells, then a returned bound is, for each of
    // `bounds` in order, how many of the cells before it are not null.
    ensures { IfOk result (λ found. found.items ≡ map (values_before (own_cells owns.now)) bounds.now) }
{
    let mut found = Vec::new(alloc);
    let mut count = 0;
    let mut at = 0;
    for bound in bounds {
        count += count_values(owns_between(owns, at, *bound));
        found.push(count)?;
        at = *bound;
    }
    Ok(found)
}
