//! Tables of the runs of a column's streams, in which its positions are looked up.
ghost use Rattle.std.specs.Prelude.{◌≡◌, ◌≢◌, ◌≤◌, ◌⊎◌, ℕ, Option, List, min, length, IfOk, IfErr, MatchBool};
ghost use Rattle.orc_values.specs.Cells.{Cell};
ghost use Rattle.orc_values.specs.Views.{shape};
ghost use Rattle.orc_directory.specs.declared.fault.StripeFault.TheVariants.{OutOfMemory};
ghost use Rattle.orc_directory.specs.declared.fault.StreamKind.TheVariants.{Present};
ghost use Rattle.orc_row_index.specs.Positions.{ArePositions, ValuePositions, reader};
ghost use Rattle.orc_row_index.specs.RunStreams.{RunStream};
ghost use Rattle.orc_row_index.specs.Walking.{runs, lent_bytes, HavePositions};
ghost use Rattle.orc_row_groups.specs.Counts.{most, AreCounted};
ghost use Rattle.orc_row_index_check.specs.Tables.{IsTable, IsFew};
ghost use Rattle.orc_row_index_check.specs.ColumnTables.{AreTables, FailsIn};

use crate::stream_table::{StreamTable, table_of};
use orc_directory::{StreamKind, StripeFault, run_fault};
use orc_row_groups::Counts;
use orc_row_index::{PlacedStreams, RunBytes};
use std::alloc::Global;

/// The tables of the streams of runs that have positions, and DATA if it has the plain bytes of texts or byte
/// strings.
#[derive(Drop)]
pub(crate) struct ColumnTable<'a> {
    pub(crate) present: StreamTable,
    pub(crate) content: Option<&'a [u8]>,
    pub(crate) own: StreamTable,
}

/// Builds the table of one of the column's streams. An error names the column and the stream.
fn stream_table(
    alloc: Global,
    column: usize,
    kind: StreamKind,
    stream: &RunBytes<'_>,
) -> Result<StreamTable, StripeFault>
    ensures found { IfOk result (IsTable (runs stream.now)) }
    ensures only { IsFew (runs stream.now) → IfErr result (λ fault. fault ≡ OutOfMemory) }
    ensures fault { IfErr result (λ fault. fault ≢ OutOfMemory → FailsIn column kind (runs stream.now) fault) }
{
    match table_of(alloc, stream) {
        Ok(table) => Ok(table),
        Err(cause) => Err(run_fault(column, kind, cause)),
    }
}

/// Builds the tables of a column's streams, by one walk over each.
///
/// # Errors
///
/// - `Run`, if one of them is no stream of runs or has more than 2^64 - 1 values.
/// - `OutOfMemory`.
pub(crate) fn tables_of<'a>(
    alloc: Global,
    column: usize,
    kind: StreamKind,
    placed: &PlacedStreams<'a>,
) -> Result<ColumnTable<'a>, StripeFault>
    ensures found { IfOk result
        (AreTables (runs placed.now.present) (lent_bytes placed.now.content) (runs placed.now.own)) }
    ensures only { IsFew (runs placed.now.present)
        → IsFew (runs placed.now.own)
        → IfErr result (λ fault. fault ≡ OutOfMemory) }
    ensures fault { IfErr result (λ fault. fault ≢ OutOfMemory
        → FailsIn column Present (runs placed.now.present) fault ⊎ FailsIn column kind (runs placed.now.own) fault) }
{
    let present = stream_table(alloc, column, StreamKind::Present, &placed.present)?;
    let own = stream_table(alloc, column, kind, &placed.own)?;
    Ok(ColumnTable {
        present,
        content: placed.content,
        own,
    })
}

/// Returns how many bytes come before: they are counted up to 2^64 - 1, and are no more than the stream has.
fn octets_before(bytes: &[u8], counted: usize) -> usize
    ensures { (n : ℕ) → counted ≡ min most n → n ≤ length bytes.now → result ≡ n }
{
    let whole = bytes.len();
    if counted < whole { counted } else { whole }
}

impl<'a> ColumnTable<'a> {
    /// Returns whether these are the positions after those of PRESENT, with these counts before.
    fn own_right(&self, positions: &[u64], counts: Counts) -> bool
        ensures { (present : RunStream) (content : Option (List ℕ)) (own : RunStream) (before : List Cell)
            → AreTables present content own self.now
            → AreCounted counts before → HavePositions present content own before
            → MatchBool result
            (ValuePositions content own before positions.now)
            (ValuePositions content own before positions.now → ⊥) }
    {
        let Some(bytes) = self.content else {
            return self.own.right(positions, counts.values as u64);
        };
        match positions {
            [offset, last @ ..] => {
                if *offset != octets_before(bytes, counts.octets) as u64 {
                    return false;
                }
                self.own.right(last, counts.values as u64)
            }
            _ => false,
        }
    }

    /// Returns whether these are the positions of the column, with these counts before.
    pub(crate) fn right(&self, positions: &[u64], counts: Counts) -> bool
        ensures { (present : RunStream) (content : Option (List ℕ)) (own : RunStream) (before : List Cell)
            → AreTables present content own self.now
            → AreCounted counts before → HavePositions present content own before
            → MatchBool result (ArePositions reader present content own before positions.now)
            (ArePositions reader present content own before positions.now → ⊥) }
    {
        let size = self.present.size();
        if positions.len() < size {
            return false;
        }
        let (first, rest) = positions.split_at(size);
        if !self.present.right(first, counts.cells as u64) {
            return false;
        }
        self.own_right(rest, counts)
    }
}
