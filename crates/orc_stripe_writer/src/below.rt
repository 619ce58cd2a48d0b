//! The cells of a column's child columns (ORC specification, "Column Encodings").
ghost use Rattle.std.specs.Prelude.{◌≡◌, ◌++◌, IfOk, OnOk, map, take, drop, option_map, slice_get};
ghost use Rattle.std.specs.List.{flat_map};
ghost use Rattle.orc_values.specs.Cells.{parts, keys_in, values_in};
ghost use Rattle.orc_values.specs.Lent.{lent_cells};
ghost use Rattle.orc_values.specs.Views.{paired, view, views};

use orc_values::{Lent, MapPair, Row, pairs_of, parts_of};
use std::alloc::{AllocError, Global};

/// Adds each of the rows at the end.
fn lend_all<'r, 'a>(found: &mut Vec<Lent<'r, 'a>>, rows: &'r [Row<'a>]) -> Result<(), AllocError>
    ensures { OnOk result (lent_cells found.new.items ≡ lent_cells found.old.items ++ views rows.now) }
{
    for row in rows {
        found.push(Lent(row))?;
    }
    Ok(())
}

/// Returns the rows as a list of cells.
pub(crate) fn lent_rows<'r, 'a>(
    alloc: Global,
    rows: &'r [Row<'a>],
) -> Result<Vec<Lent<'r, 'a>>, AllocError>
    ensures { IfOk result (λ found. lent_cells found.items ≡ views rows.now) }
{
    let mut found = Vec::with_capacity(alloc, rows.len())?;
    lend_all(&mut found, rows)?;
    Ok(found)
}

/// Returns the elements of the lists that are not null, joined in order.
pub(crate) fn elements_of<'r, 'a>(
    alloc: Global,
    lists: &[Lent<'r, 'a>],
) -> Result<Vec<Lent<'r, 'a>>, AllocError>
    ensures { IfOk result (λ found. lent_cells found.items ≡ flat_map parts (lent_cells lists.now)) }
{
    let mut found = Vec::new(alloc);
    for list in lists {
        lend_all(&mut found, parts_of(list.0))?;
    }
    Ok(found)
}

/// Returns the field at a place of a struct; `None` if the cell is null.
fn field_at<'r, 'a>(row: &'r Row<'a>, place: usize) -> Option<&'r Row<'a>>
    ensures { option_map (λ r. view r.now) result ≡ slice_get (parts (view row.now)) place }
{
    parts_of(row).get(place)
}

/// Adds the field at a place of a struct, if the struct isn't null.
fn lend_field<'r, 'a>(
    found: &mut Vec<Lent<'r, 'a>>,
    row: &'r Row<'a>,
    place: usize,
) -> Result<(), AllocError>
    ensures { OnOk result
        (lent_cells found.new.items ≡ lent_cells found.old.items ++ take 1 (drop place (parts (view row.now)))) }
{
    let Some(field) = field_at(row, place) else {
        return Ok(());
    };
    found.push(Lent(field))?;
    Ok(())
}

/// Returns the field at a place of each struct that is not null, in order.
pub(crate) fn fields_of<'r, 'a>(
    alloc: Global,
    structs: &[Lent<'r, 'a>],
    place: usize,
) -> Result<Vec<Lent<'r, 'a>>, AllocError>
    ensures { IfOk result
        (λ found. lent_cells found.items ≡ flat_map (λ c. take 1 (drop place (parts c))) (lent_cells structs.now)) }
{
    let mut found = Vec::with_capacity(alloc, structs.len())?;
    for row in structs {
        lend_field(&mut found, row.0, place)?;
    }
    Ok(found)
}

/// Adds the key of each pair at the end.
fn lend_keys<'r, 'a>(
    found: &mut Vec<Lent<'r, 'a>>,
    pairs: &'r [MapPair<'a>],
) -> Result<(), AllocError>
    ensures { OnOk result
        (lent_cells found.new.items ≡ lent_cells found.old.items ++ map (λ p. p.0) (map paired pairs.now)) }
{
    for pair in pairs {
        found.push(Lent(&pair.key))?;
    }
    Ok(())
}

/// Adds the value of each pair at the end.
fn lend_values<'r, 'a>(
    found: &mut Vec<Lent<'r, 'a>>,
    pairs: &'r [MapPair<'a>],
) -> Result<(), AllocError>
    ensures { OnOk result
        (lent_cells found.new.items ≡ lent_cells found.old.items ++ map (λ p. p.1) (map paired pairs.now)) }
{
    for pair in pairs {
        found.push(Lent(&pair.value))?;
    }
    Ok(())
}

/// Returns the keys of the maps that are not null, joined in order.
pub(crate) fn keys_of<'r, 'a>(
    alloc: Global,
    maps: &[Lent<'r, 'a>],
) -> Result<Vec<Lent<'r, 'a>>, AllocError>
    ensures { IfOk result (λ found. lent_cells found.items ≡ flat_map keys_in (lent_cells maps.now)) }
{
    let mut found = Vec::new(alloc);
    for row in maps {
        lend_keys(&mut found, pairs_of(row.0))?;
    }
    Ok(found)
}

/// Returns the values of the maps that are not null, joined in order.
pub(crate) fn map_values_of<'r, 'a>(
    alloc: Global,
    maps: &[Lent<'r, 'a>],
) -> Result<Vec<Lent<'r, 'a>>, AllocError>
    ensures { IfOk result (λ found. lent_cells found.items ≡ flat_map values_in (lent_cells maps.now)) }
{
    let mut found = Vec::new(alloc);
    for row in maps {
        lend_values(&mut found, pairs_of(row.0))?;
    }
    Ok(found)
}
