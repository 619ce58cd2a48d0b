//! How many runs are read from the positions that a writer writes. `writers_positions` does nothing: its contract is
//! the statement.
//!
//! `HasWrittenIndexes bytes tail rows` says that, if the stride is above 0, each column of each stripe of a file has
//! the row index that a writer writes from the column's streams and cells. `WasWritten bytes rows` says that
//! `Writer::finish` wrote the bytes for these rows. `ReadsOneRun bytes tail rows` says of each position in a file's
//! row indexes, as a reader finds them, that it names the run that holds the first value of the group, and that
//! `seek` from there decodes at most one run. `SeekCounts` is what `RunCodec::seek`, `ByteRuns::seek` and
//! `BitRuns::seek` promise about the count of decoded runs.
ghost use Rattle.std.specs.Prelude.{◌<◌, ◌^◌, ℕ, List, Option, length};
ghost use Rattle.orc_values.specs.Cells.{Cell};
ghost use Rattle.orc_values.specs.Shapes.{Shape};
ghost use Rattle.orc_row_batch.specs.declared.options.Options.{Options};
ghost use Rattle.orc_file_reader.specs.FileRows.{FileIs, rows_together};
ghost use Rattle.orc_file_writer.specs.Writing.{WroteWholeFile};
ghost use Rattle.orc_tail.specs.declared.tail.Tail.{Tail};
ghost use Rattle.orc_merger.specs.Merging.{IsMerge};
ghost use Rattle.orc_merge_laws.specs.Grouping.{Groups, merge, all_leaves, Wrote};
ghost use Rattle.orc_theorems.specs.WrittenIndexes.{HasWrittenIndexes, AreIndexedAsWritten, WereWritten};
ghost use Rattle.orc_theorems.specs.OneRunPositions.{ReadsOneRun};

use orc_file::written_laws;
use orc_merge_laws::grouping;

/// From a position in a row index of a written file, `seek` reads at most one run, whatever the stream holds. The
/// same holds for files that are merged of written files, in any grouping. It is said only of a writer's row indexes:
/// those of other writers may be right and still name a run far before the value.
pub fn writers_positions()
    // If `finish` succeeded, then what it wrote is a file with the returned tail and the rows that were pushed.
    // If its stride is above 0, each column of each stripe has the row index that a writer writes from the
    // column's streams and cells.
    ensures written { (options : Options) (schema : Shape) (tail : Tail) (first told : Option (List ℕ)) (rows : List Cell)
        → (finish_wrote : WroteWholeFile options schema tail first told rows)
        → FileIs finish_wrote.bytes tail rows × HasWrittenIndexes finish_wrote.bytes tail rows }
    // If a merged file has fewer than 2^64 bytes, and each input is a file with rows and with row indexes as a
    // writer writes them, then the merged file is a file with the merged tail and the inputs' rows, in order,
    // and with row indexes as a writer writes them.
    ensures merged { (files : List (List ℕ)) (tail : Tail) (out : List ℕ) (parts : List (List Cell))
        → (it_is_their_merge : IsMerge files tail out)
        → (it_has_fewer_than_2_64_bytes : length out < 2 ^ 64)
        → (each_file_has_a_writers_indexes : AreIndexedAsWritten files parts)
        → FileIs out tail (rows_together parts) × HasWrittenIndexes out tail (rows_together parts) }
    // If each merge of a grouping wrote its file, and each file of the grouping has rows and row indexes as a
    // writer writes them, then the grouping wrote a file with all these rows, in order, and with row indexes as
    // a writer writes them.
    ensures grouped { (groups : Groups) (out : List ℕ) (parts : List (List Cell))
        → (each_merge_wrote : Wrote (merge groups) out)
        → (each_file_has_a_writers_indexes : AreIndexedAsWritten (all_leaves groups) parts)
        → (tail : Tail) × FileIs out tail (rows_together parts) × HasWrittenIndexes out tail (rows_together parts) }

    // If a file with rows has row indexes as a writer writes them, then from each position in them `seek` reads
    // at most one run, of integers, bytes or booleans.
    ensures one_run { (bytes : List ℕ) (tail : Tail) (rows : List Cell)
        → (it_is_a_file_of_the_rows : FileIs bytes tail rows)
        → (it_has_a_writers_indexes : HasWrittenIndexes bytes tail rows)
        → ReadsOneRun bytes tail rows }
    // If `finish` succeeded, then from each position in the row indexes of what it wrote `seek` reads at most one
    // run, of integers, bytes or booleans.
    ensures in_files { (options : Options) (schema : Shape) (tail : Tail) (first told : Option (List ℕ))
        (rows : List Cell)
        → (finish_wrote : WroteWholeFile options schema tail first told rows)
        → ReadsOneRun finish_wrote.bytes tail rows }
    // If each merge of a grouping wrote its file, and each file of the grouping was written by `finish`, then the
    // grouping wrote a file with the rows of all these files, in order, and from each position in its row indexes
    // `seek` reads at most one run, of integers, bytes or booleans.
    ensures in_merges { (groups : Groups) (out : List ℕ) (parts : List (List Cell))
        → (each_merge_wrote : Wrote (merge groups) out)
        → (each_file_was_written : WereWritten (all_leaves groups) parts)
        → (tail : Tail) × FileIs out tail (rows_together parts) × ReadsOneRun out tail (rows_together parts) }
{
    // each for its contract alone
    written_laws();
    grouping();
}
