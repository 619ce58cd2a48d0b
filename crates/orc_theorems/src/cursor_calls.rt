//! A caller of `reading_from_the_middle`: it reads the rows of a stripe from a group on, by `cursor_at` and `next`.
ghost use Rattle.std.specs.Prelude.{◌≡◌, ◌<◌, ◌*◌, ℕ, List, [], length, drop, MatchResult};
ghost use Rattle.orc_values.specs.Cells.{Cell};
ghost use Rattle.orc_values.specs.Views.{views};
ghost use Rattle.orc_column_reader.specs.Stripe.{Streams, HasFooter};
ghost use Rattle.orc_directory.specs.declared.fault.StripeFault.TheVariants as stripe;
ghost use Rattle.orc_stripe_reader.specs.Opened.{Opened};
ghost use Rattle.orc_stripe_reader.specs.GroupCursors.{StartsGroup};
ghost use Rattle.orc_tail.specs.Stripes.{stripe_at, stripe_bytes};
ghost use Rattle.orc_tail.specs.declared.tail.Tail.{Tail};
ghost use Rattle.orc_file_reader.specs.FileRows.{FileIs, cut_rows};
ghost use Rattle.orc_check.specs.Findings.{Findings, rows_at};
ghost use Rattle.orc_theorems.specs.BeforeGroups.{DiffersOnlyBefore};
ghost use Rattle.orc_theorems.specs.RowsRead.{rows_read};

use crate::groups_of_rows::reading_from_the_middle;
use orc_directory::StripeFault;
use orc_file_reader::row_laws;
use orc_stripe_reader::StripeView;
use orc_types::Schema;
use orc_values::Row;
use orc_wire::StripeInfo;
use std::alloc::Global;

/// The rows of a stripe from a group on: the first one, if there is one, and those after it.
#[derive(Drop)]
pub struct GroupRows<'a> {
    pub first: Option<Row<'a>>,
    pub rest: Vec<Row<'a>>,
}

/// Reads the rows of an opened stripe from a group on.
fn read_from<'a>(
    alloc: Global,
    view: &StripeView<'a>,
    group: u64,
) -> Result<GroupRows<'a>, StripeFault>
    ensures { (x : ℕ → Streams) (rows : List Cell) → StartsGroup view.now x rows group
        → MatchResult result
        (λ read. rows_read read.first (views read.rest.items) ≡ drop (group * view.now.stride) rows)
        (λ fault. fault ≡ stripe.OutOfMemory) }
{
    let mut cursor = match view.cursor_at(alloc, group) {
        Ok(cursor) => cursor,
        Err(fault) => return Err(fault),
    };
    let first = match cursor.next() {
        Ok(first) => first,
        Err(fault) => return Err(fault),
    };
    match cursor.rest() {
        Ok(rest) => Ok(GroupRows { first, rest }),
        Err(fault) => Err(fault),
    }
}

/// Opens a stripe and reads its rows from a group on: the first one with `next`, and those after it with `rest`. If the
/// file of the stripe has no findings, then these are the stripe's rows from the group's first row on, by clause
/// `starts` of `reading_from_the_middle`. Bytes before the group's offsets don't matter, by its clauses `alone` and
/// `footer`.
///
/// # Errors
///
/// Fails if opening the stripe fails, or its cursor.
pub fn rows_from<'a>(
    alloc: Global,
    schema: &'a Schema,
    info: StripeInfo,
    stride: u32,
    bytes: &'a [u8],
    group: u64,
) -> Result<GroupRows<'a>, StripeFault>
    // If a file with rows has no findings, and `bytes` are one of its stripes, which has the group, then the stripe's
    // rows from the group's first row on are returned, or the error is `OutOfMemory`.
    ensures file { (all : List ℕ) (tail : Tail) (rows : List Cell) (n : ℕ)
        → FileIs all tail rows → Findings all tail rows []
        → n < length tail.stripes
        → (schema.now ≡ tail.schema) × (info ≡ stripe_at tail.stripes n) × (stride ≡ tail.stride)
        → bytes.now ≡ stripe_bytes (stripe_at tail.stripes n) all
        → 0 < stride → group * stride < info.number_of_rows
        → MatchResult result
        (λ read. rows_read read.first (views read.rest.items)
        ≡ drop (group * stride) (rows_at (cut_rows tail.stripes rows) n))
        (λ fault. fault ≡ stripe.OutOfMemory) }
    // If some stripe starts at the group with rows, and `bytes` differ from this stripe only before the offsets that
    // the group's index entries record, then its rows from the group's first row on are returned, or the error is
    // `OutOfMemory`.
    ensures alone { (whole : Opened) (x : ℕ → Streams) (rows : List Cell)
        → (schema.now ≡ whole.schema) × (info ≡ whole.info) × (stride ≡ whole.stride)
        → HasFooter whole.schema whole.info whole.bytes whole.footer
        → StartsGroup whole x rows group
        → DiffersOnlyBefore whole group bytes.now
        → MatchResult result
        (λ read. rows_read read.first (views read.rest.items) ≡ drop (group * stride) rows)
        (λ fault. fault ≡ stripe.OutOfMemory) }
{
    // each for its contract alone: a stripe starts at each of its groups if the file has no findings, and bytes before
    // a group's offsets don't matter; a file's rows are those of its stripes
    reading_from_the_middle();
    row_laws();
    match StripeView::open(alloc, schema, info, stride, bytes) {
        Ok(view) => read_from(alloc, &view, group),
        Err(fault) => Err(fault),
    }
}
