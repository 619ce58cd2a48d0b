//! The fields of a struct, and the field that a key of an object names (RFC 8259, "Objects").
ghost use Rattle.std.specs.Prelude.{◌≡◌, ◌<◌, ◌≤◌, length, replicate, None, Option, IfOk, IfSome, slice_set};
ghost use Rattle.std.specs.Bool.{OnTrue};
ghost use Rattle.orc_values.specs.declared.value.Value.{Value as SpecValue};
ghost use Rattle.orc_json_reader.specs.Frontier.{HasName, read_up_to};

use orc_values::{Field, Row};
use std::alloc::{AllocError, Global};

/// The most fields that are searched for a key. The search begins at the field after all those that keys have named. A struct
/// with no more fields than that is also searched from its first. A bound keeps the time that a row takes from growing with the
/// square of its fields.
const MOST_SEARCHED: usize = 64;

/// Makes a list of `count` nulls.
pub(crate) fn nulls(alloc: Global, count: usize) -> Result<Vec<Row<'static>>, AllocError>
    ensures { IfOk result (λ rows. rows.items ≡ replicate count None) }
{
    let mut rows = Vec::with_capacity(alloc, count)?;
    for _ in 0..count {
        rows.push(None)?;
    }
    Ok(rows)
}

/// Makes the rows from the place `from` up to the place `to` null.
fn set_null(rows: &mut Vec<Row<'static>>, from: usize, to: usize)
    requires order { from ≤ to }
    requires within { to ≤ length rows.old.items }
    ensures rows { read_up_to to rows.new.items ≡ read_up_to from rows.old.items }
    ensures len { length rows.new.items ≡ length rows.old.items }
{
    for place in from..to {
        rows[place] = None;
    }
}

/// Makes the rows null that a key passes over whose field is at `place`. Returns the place up to which rows are read, or null,
/// once the key's value is read.
fn pass_to(rows: &mut Vec<Row<'static>>, next: usize, place: usize) -> usize
    requires { place < length rows.old.items }
    ensures within { next ≤ length rows.old.items → result ≤ length rows.new.items }
    ensures len { length rows.new.items ≡ length rows.old.items }
    ensures rows { (row : Option SpecValue)
        → read_up_to result (slice_set rows.new.items place row) ≡ slice_set (read_up_to next rows.old.items) place row }
{
    if place < next {
        return next;
    }
    set_null(rows, next, place);
    place + 1
}

/// Makes the rows from `next` on null, as no key has named their fields.
pub(crate) fn end_at(rows: &mut Vec<Row<'static>>, next: usize)
    requires { next ≤ length rows.old.items }
    ensures { rows.new.items ≡ read_up_to next rows.old.items }
{
    let count = rows.len();
    set_null(rows, next, count);
}

/// Whether the field at a place is there and has the name.
fn is_named(fields: &[Field], place: usize, name: &str) -> bool
    ensures { OnTrue result (HasName fields.now name.now place) }
{
    match fields.get(place) {
        Some(field) => field.name.as_str() == name,
        None => false,
    }
}

/// Finds the field with that name among the `MOST_SEARCHED` fields that begin at the place `from`.
fn place_from(fields: &[Field], name: &str, from: usize) -> Option<usize>
    ensures { IfSome result (HasName fields.now name.now) }
{
    let end = from.saturating_add(MOST_SEARCHED).min(fields.len());
    for place in from..end {
        if is_named(fields, place, name) {
            return Some(place);
        }
    }
    None
}

/// Finds the field with that name. The fields from `next` on are searched first, because keys that come in the order of the
/// fields name a field there, even if some keys are missing. If the struct has few fields, all are searched then.
fn place_of(fields: &[Field], name: &str, next: usize) -> Option<usize>
    ensures { IfSome result (HasName fields.now name.now) }
{
    match place_from(fields, name, next) {
        None if fields.len() <= MOST_SEARCHED => place_from(fields, name, 0),
        found => found,
    }
}

/// Finds the field with that name, and makes the rows null that its key passes over. Once the key's value is read, the rows
/// before `next` are read, or null. The next field is compared first, because most keys come in the order of the fields.
pub(crate) fn come_to(
    fields: &[Field],
    name: &str,
    next: &mut usize,
    rows: &mut Vec<Row<'static>>,
) -> Option<usize>
    requires as_many { length rows.old.items ≡ length fields.now }
    requires within { next.old ≤ length rows.old.items }
    ensures named { IfSome result (HasName fields.now name.now) }
    ensures within { next.new ≤ length rows.new.items }
    ensures len { length rows.new.items ≡ length rows.old.items }
    ensures rows { IfSome result (λ place. (row : Option SpecValue)
        → read_up_to next.new (slice_set rows.new.items place row) ≡ slice_set (read_up_to next.old rows.old.items) place row) }
{
    if is_named(fields, *next, name) {
        let place = *next;
        *next = place + 1;
        return Some(place);
    }
    let place = place_of(fields, name, *next)?;
    *next = pass_to(rows, *next, place);
    Some(place)
}
