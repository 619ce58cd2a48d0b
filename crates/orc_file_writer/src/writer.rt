//! A writer of a file.
ghost use Rattle.std.specs.Prelude.{◌≡◌, ◌+◌, ◌<◌, ◌≤◌, ℕ, length, get_or, true, false};
ghost use Rattle.orc_values.specs.Shapes.{width};
ghost use Rattle.orc_values.specs.Columns as columns;
ghost use Rattle.orc_row_batch.specs.Batch.{Holds, kept_rows};
ghost use Rattle.orc_tail.specs.Stripes.{stripes_length, stripes_rows, most_stripes, most_rows, most_bytes};
ghost use Rattle.orc_file_writer.specs.Counts.{are_laid_with_few_rows, are_few, are_all_stats};
ghost use Rattle.orc_file_writer.specs.laws.Held.{Holds-prop};

mod counting;
mod file_end;
mod writing;

use orc_io::Sink;
use orc_row_batch::{Options, RowBatch};
use orc_stats::Stat;
use orc_types::Schema;
use orc_values::Row;
use orc_wire::{Items, StripeInfo};
use std::alloc::Global;

/// A writer of a file. Rows are pushed to it, and each stripe is written when its last row is pushed. A stripe has as
/// many rows as the options say; the file's last stripe may have fewer.
///
/// Some errors leave the writer as it was. After any other error the writer has *failed*: it writes no more, and
/// `push`, `push_owned` and `finish` answer `Failed`.
#[derive(Drop)]
pub struct Writer<W: Sink> {
    pub(crate) alloc: Global,
    pub(crate) schema: Schema,
    pub(crate) options: Options,
    pub(crate) out: W,
    /// The records of the stripes that are written.
    pub(crate) infos: Vec<StripeInfo>,
    /// The statistics of the columns of each stripe that is written.
    pub(crate) stats: Vec<Items<Stat>>,
    /// The number of bytes that the output has taken.
    pub(crate) written: u64,
    /// The number of rows that were pushed.
    pub(crate) total: u64,
    /// The rows of the open stripe, as columns.
    pub(crate) batch: RowBatch,
    /// The number of cells of each column in the open stripe.
    pub(crate) counts: Vec<u64>,
    /// Room for these numbers with one row more.
    pub(crate) sums: Vec<u64>,
    /// The row that was given to the writer last, kept for its memory alone; null if it was handed out again.
    pub(crate) spare: Row<'static>,
    pub(crate) failed: bool,
    ghost laid: { are_laid_with_few_rows 3 infos.items ≡ true },
    ghost stripes: { length infos.items ≤ most_stripes },
    ghost bytes: { stripes_length infos.items ≤ most_bytes },
    ghost counted_stats: { failed ≡ false → are_all_stats schema stats.items ≡ true },
    ghost paired: { failed ≡ false → length stats.items ≡ length infos.items },
    ghost placed: { failed ≡ false → written ≡ 3 + stripes_length infos.items },
    ghost few_bytes: { written ≤ 3 + most_bytes },
    ghost held: { Holds schema (kept_rows schema batch) batch } by { Holds-prop schema (kept_rows schema batch) batch },
    ghost total_is: { total ≡ stripes_rows infos.items + length (kept_rows schema batch) },
    ghost few_rows: { total ≤ most_rows },
    ghost room: { 0 < length (kept_rows schema batch) → length infos.items < most_stripes },
    ghost wide: { length counts.items ≡ width schema },
    ghost wide_sums: { length sums.items ≡ width schema },
    ghost few_cells: { are_few counts.items ≡ true },
    ghost counted: { (c : ℕ) → c < width schema
        → get_or counts.items c 0 ≡ length (columns.cells schema c (kept_rows schema batch)) },
}

impl<W: Sink> Writer<W> {
    /// Returns how many bytes the output has taken from this writer, even if the writer has failed.
    pub fn written(&self) -> u64
        // Returns the writer's count of the bytes that its output has taken.
        ensures { result ≡ self.now.written }
    {
        self.written
    }
}
