//! The room of old texts, lists and maps, in which new ones are read. Room that is small, or less than twice what is needed, is
//! kept. Other room is given back, so that a row doesn't keep what a far larger row needed. No contract speaks of room.
ghost use Rattle.std.specs.Prelude.{◌≡◌, ◌<◌, ◌≤◌, length, take, OnOk};

use crate::field_places::nulls;
use orc_values::{MapPair, Row, Value};
use std::alloc::{AllocError, Global};

/// Room for this many bytes of a text is kept, however short the text.
const SMALL_TEXT: usize = 64;

/// Room for this many elements of a list or a map is kept, however few there are.
const SMALL_LIST: usize = 16;

/// Whether room for `capacity` items is kept for `count` of them: if it is small, or less than twice what they need.
fn is_kept(capacity: usize, count: usize, small: usize) -> bool {
    capacity <= small || capacity / 2 < count
}

/// Whether the room of an old text is kept for a text of `len` bytes.
pub(crate) fn is_text_kept(capacity: usize, len: usize) -> bool {
    is_kept(capacity, len, SMALL_TEXT)
}

/// Puts `blank` at the end if the place has no old element.
fn make_room<T: Drop>(items: &mut Vec<T>, place: usize, blank: T) -> Result<(), AllocError>
    requires { place ≤ length items.old.items }
    ensures room { OnOk result (place < length items.new.items) }
    ensures before { OnOk result (take place items.new.items ≡ take place items.old.items) }
{
    if place >= items.len() {
        items.push(blank)?;
    }
    Ok(())
}

/// Drops the old elements after the first `count`, and gives room back that is too large.
fn cut_room<T: Drop>(items: &mut Vec<T>, count: usize)
    ensures { items.new.items ≡ take count items.old.items }
{
    items.truncate(count);
    if !is_kept(items.capacity(), count, SMALL_LIST) {
        items.shrink_to_fit();
    }
}

/// Puts null at the end of a list if the place has no old element.
pub(crate) fn make_row_room(rows: &mut Vec<Row<'static>>, place: usize) -> Result<(), AllocError>
    requires { place ≤ length rows.old.items }
    ensures room { OnOk result (place < length rows.new.items) }
    ensures before { OnOk result (take place rows.new.items ≡ take place rows.old.items) }
{
    make_room(rows, place, None)
}

/// Drops the old elements of a list after the first `count`, as `cut_room` does.
pub(crate) fn cut_rows(rows: &mut Vec<Row<'static>>, count: usize)
    ensures { rows.new.items ≡ take count rows.old.items }
{
    cut_room(rows, count);
}

/// Puts a pair of nulls at the end of a map if the place has no old pair.
pub(crate) fn make_pair_room(
    pairs: &mut Vec<MapPair<'static>>,
    place: usize,
) -> Result<(), AllocError>
    requires { place ≤ length pairs.old.items }
    ensures room { OnOk result (place < length pairs.new.items) }
    ensures before { OnOk result (take place pairs.new.items ≡ take place pairs.old.items) }
{
    let none = MapPair {
        key: None,
        value: None,
    };
    make_room(pairs, place, none)
}

/// Drops the old pairs of a map after the first `count`, as `cut_room` does.
pub(crate) fn cut_pairs(pairs: &mut Vec<MapPair<'static>>, count: usize)
    ensures { pairs.new.items ≡ take count pairs.old.items }
{
    cut_room(pairs, count);
}

/// Makes a row an empty list, unless it is a list.
pub(crate) fn make_list(alloc: Global, cell: &mut Row<'static>) {
    if !matches!(cell, Some(Value::List(_))) {
        *cell = Some(Value::List(Vec::new(alloc)));
    }
}

/// Makes a row an empty map, unless it is a map.
pub(crate) fn make_map(alloc: Global, cell: &mut Row<'static>) {
    if !matches!(cell, Some(Value::Map(_))) {
        *cell = Some(Value::Map(Vec::new(alloc)));
    }
}

/// Makes a row a struct of `count` nulls, unless it is a struct of `count` fields.
pub(crate) fn make_struct(
    alloc: Global,
    cell: &mut Row<'static>,
    count: usize,
) -> Result<(), AllocError> {
    if !matches!(cell, Some(Value::Struct(rows)) if rows.len() == count) {
        *cell = Some(Value::Struct(nulls(alloc, count)?));
    }
    Ok(())
}
