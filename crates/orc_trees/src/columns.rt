//! The cells of a column, found among rows: elements of lists, keys and values of maps, fields of structs, down the
//! tree of types.
ghost use Rattle.std.specs.Prelude.{◌≡◌, ◌<◌, ◌^◌, ◌++◌, ◌≤◌, IfOk, OnOk, IfSome, IfNone, take, drop, map, length, option_map, slice_get};
ghost use Rattle.std.specs.List.{flat_map};
ghost use Rattle.orc_values.specs.Shapes.{width, widths};
ghost use Rattle.orc_values.specs.Cells.{parts, keys_in, values_in};
ghost use Rattle.orc_values.specs.Columns as spec;
ghost use Rattle.orc_values.specs.Columns.{IsLocated};
ghost use Rattle.orc_values.specs.Views.{view, views, lent_views, paired, shape, fields as fields_view};

use orc_values::{Field, MapPair, Row, Tree, pairs_of, parts_of, width_of};
use std::alloc::{AllocError, Global};

/// Adds each of the rows at the end.
pub fn lend_all<'r, 'a>(found: &mut Vec<&'r Row<'a>>, rows: &'r [Row<'a>]) -> Result<(), AllocError>
    // Unless memory is refused, the rows stand behind what was found before, in order.
    ensures { OnOk result (lent_views found.new.items ≡ lent_views found.old.items ++ views rows.now) }
{
    for row in rows {
        found.push(row)?;
    }
    Ok(())
}

/// The elements of the lists that are not null, in order.
fn elements<'r, 'a>(alloc: Global, rows: Vec<&'r Row<'a>>) -> Result<Vec<&'r Row<'a>>, AllocError>
    ensures { IfOk result (λ v. lent_views v.items ≡ flat_map parts (lent_views rows.entry.items)) }
{
    let mut found = Vec::new(alloc);
    for row in rows {
        lend_all(&mut found, parts_of(row))?;
    }
    Ok(found)
}

/// The field at a place of a struct that is not null.
fn field_at<'r, 'a>(row: &'r Row<'a>, i: usize) -> Option<&'r Row<'a>>
    ensures { option_map (λ r. view r.now) result ≡ slice_get (parts (view row.now)) i }
{
    parts_of(row).get(i)
}

/// Adds the field at a place of a struct that is not null.
fn lend_field<'r, 'a>(
    found: &mut Vec<&'r Row<'a>>,
    row: &'r Row<'a>,
    i: usize,
) -> Result<(), AllocError>
    ensures { OnOk result (lent_views found.new.items
        ≡ lent_views found.old.items ++ take 1 (drop i (parts (view row.now)))) }
{
    let Some(field) = field_at(row, i) else {
        return Ok(());
    };
    found.push(field)?;
    Ok(())
}

/// The fields at a place of the structs that are not null, in order.
fn members<'r, 'a>(
    alloc: Global,
    rows: Vec<&'r Row<'a>>,
    i: usize,
) -> Result<Vec<&'r Row<'a>>, AllocError>
    ensures { IfOk result
        (λ v. lent_views v.items ≡ flat_map (λ c. take 1 (drop i (parts c))) (lent_views rows.entry.items)) }
{
    let mut found = Vec::new(alloc);
    for row in rows {
        lend_field(&mut found, row, i)?;
    }
    Ok(found)
}

/// Adds the key of each pair at the end.
fn lend_keys<'r, 'a>(
    found: &mut Vec<&'r Row<'a>>,
    pairs: &'r [MapPair<'a>],
) -> Result<(), AllocError>
    ensures { OnOk result (lent_views found.new.items
        ≡ lent_views found.old.items ++ map (λ p. p.0) (map paired pairs.now)) }
{
    for pair in pairs {
        found.push(&pair.key)?;
    }
    Ok(())
}

/// Adds the value of each pair at the end.
fn lend_values<'r, 'a>(
    found: &mut Vec<&'r Row<'a>>,
    pairs: &'r [MapPair<'a>],
) -> Result<(), AllocError>
    ensures { OnOk result (lent_views found.new.items
        ≡ lent_views found.old.items ++ map (λ p. p.1) (map paired pairs.now)) }
{
    for pair in pairs {
        found.push(&pair.value)?;
    }
    Ok(())
}

/// The keys of the maps that are not null, in order.
fn keys<'r, 'a>(alloc: Global, rows: Vec<&'r Row<'a>>) -> Result<Vec<&'r Row<'a>>, AllocError>
    ensures { IfOk result (λ v. lent_views v.items ≡ flat_map keys_in (lent_views rows.entry.items)) }
{
    let mut found = Vec::new(alloc);
    for row in rows {
        lend_keys(&mut found, pairs_of(row))?;
    }
    Ok(found)
}

/// The values of the maps that are not null, in order.
fn map_values<'r, 'a>(alloc: Global, rows: Vec<&'r Row<'a>>) -> Result<Vec<&'r Row<'a>>, AllocError>
    ensures { IfOk result (λ v. lent_views v.items ≡ flat_map values_in (lent_views rows.entry.items)) }
{
    let mut found = Vec::new(alloc);
    for row in rows {
        lend_values(&mut found, pairs_of(row))?;
    }
    Ok(found)
}

/// Which field has a column of the fields, and the column's number in that field.
fn field_of_column(fields: &Vec<Field>, column: usize) -> Option<(usize, usize)>
    requires { widths (fields_view fields.now.items) < 2 ^ 32 }
    ensures some { IfSome result (λ p. (p.0 < length fields.now.items)
        × IsLocated (fields_view fields.now.items) column p.0 p.1) }
    ensures none { IfNone result (widths (fields_view fields.now.items) ≤ column) }
{
    let mut left = column;
    for (i, field) in fields.iter().enumerate() {
        let width = width_of(&field.tree);
        if left < width {
            return Some((i, left));
        }
        left -= width;
    }
    None
}

/// The cells of a column of a type, from the cells of the type.
pub fn cells_of<'r, 'a>(
    alloc: Global,
    tree: &Tree,
    column: usize,
    rows: Vec<&'r Row<'a>>,
) -> Result<Vec<&'r Row<'a>>, AllocError>
    requires { width (shape tree.now) < 2 ^ 32 }
    // If the type has fewer than 2^32 columns, then the returned cells are exactly the column's cells in the cells
    // of the type, in order.
    ensures { IfOk result (λ v. lent_views v.items ≡ spec.cells (shape tree.now) column (lent_views rows.entry.items)) }
{
    if column == 0 {
        return Ok(rows);
    }
    match tree {
        Tree::Scalar(_, _) => Ok(rows),
        Tree::List(element, _) => {
            let below = elements(alloc, rows)?;
            cells_of(alloc, element, column - 1, below)
        }
        Tree::Map(key, value, _) => {
            let width = width_of(key);
            if column - 1 < width {
                let below = keys(alloc, rows)?;
                cells_of(alloc, key, column - 1, below)
            } else {
                let below = map_values(alloc, rows)?;
                cells_of(alloc, value, column - 1 - width, below)
            }
        }
        Tree::Struct(fields, _) => {
            let Some((i, below)) = field_of_column(fields, column - 1) else {
                return Ok(Vec::new(alloc));
            };
            let structs = members(alloc, rows, i)?;
            cells_of(alloc, &fields[i].tree, below, structs)
        }
    }
}
