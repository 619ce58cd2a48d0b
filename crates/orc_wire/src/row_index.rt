//! The row index of a column: where each group of its rows begins.
use crate::canonical::{put_each, put_packed_u64, put_shown};
use crate::column_stats::ColumnStats;
use crate::fault::WireFault;
use crate::field::Field;
use crate::inner::{take_each, take_only, test_each, test_only};
use crate::items::Items;
use crate::lists::{take_packed_u64, test_packed};
use crate::message::Message;
use std::alloc::Global;

/// Where a group of rows begins in a column's streams, and its statistics (ORC specification, "Row
/// Group Index", RowIndexEntry).
#[derive(Debug, Drop)]
pub struct RowIndexEntry {
    /// The positions, stream by stream.
    pub positions: Items<u64>,
    /// The statistics of the group's rows.
    pub statistics: Option<ColumnStats>,
}

impl Message for RowIndexEntry {
    ghost use Rattle.std.specs.Prelude.{◌≡◌};
    ghost use Rattle.std.specs.Option.{is_some};
    ghost use Rattle.orc_wire.specs.Messages.{row_index_entry};
    ghost use Rattle.orc_wire.specs.CanonicalMessages.{row_index_entry_text, row_index_entry_complete};

    ghost members = { row_index_entry };

    ghost canonical = { row_index_entry_text };

    ghost REQUIRED = { 0 };

    ghost sees = { λ seen m. is_some m.statistics ≡ seen };

    const REQUIRED: u32 = 0;

    type Seen = bool;

    fn empty(alloc: Global) -> RowIndexEntry {
        RowIndexEntry {
            positions: Items::empty(alloc),
            statistics: None,
        }
    }

    fn take(&mut self, alloc: Global, field: &Field) -> Result<(), WireFault> {
        take_packed_u64(&mut self.positions, 1, field)?;
        take_only(alloc, &mut self.statistics, 2, field)
    }

    fn nothing_seen() -> bool {
        false
    }

    fn test(seen: &mut bool, field: &Field) -> Result<(), WireFault> {
        test_packed(1, u64::MAX, field)?;
        test_only::<ColumnStats>(seen, 2, field)
    }

    fn put_members(&self, out: &mut Vec<u8>) -> Result<(), WireFault> {
        put_packed_u64(1, self.positions.as_slice(), out)?;
        put_shown(2, &self.statistics, out)
    }

    ghost complete = { row_index_entry_complete };
}

/// The row index of a column in a stripe (RowIndex).
#[derive(Debug, Drop)]
pub struct RowIndexMsg {
    /// One entry for each group of rows, in their order.
    pub entries: Items<RowIndexEntry>,
}

impl Message for RowIndexMsg {
    ghost use Rattle.orc_wire.specs.Messages.{row_index};
    ghost use Rattle.orc_wire.specs.CanonicalMessages.{row_index_text, row_index_complete};

    ghost members = { row_index };

    ghost canonical = { row_index_text };

    ghost REQUIRED = { 0 };

    const REQUIRED: u32 = 0;

    type Seen = ();

    fn empty(alloc: Global) -> RowIndexMsg {
        RowIndexMsg {
            entries: Items::empty(alloc),
        }
    }

    fn take(&mut self, alloc: Global, field: &Field) -> Result<(), WireFault> {
        take_each(alloc, &mut self.entries, 1, field)
    }

    fn nothing_seen() -> () {
        ()
    }

    fn test(_seen: &mut (), field: &Field) -> Result<(), WireFault> {
        test_each::<RowIndexEntry>(1, field)
    }

    fn put_members(&self, out: &mut Vec<u8>) -> Result<(), WireFault> {
        put_each(1, self.entries.as_slice(), out)
    }

    ghost complete = { row_index_complete };
}
