//! Checks a file stripe by stripe.
ghost use Rattle.std.specs.Prelude.{◌≡◌, ◌⊎◌, List, length, IfOk, IfErr, IfSome, MatchResult};
ghost use Rattle.orc_values.specs.Cells.{Cell};
ghost use Rattle.orc_io.specs.Leaves.{LeavesSource};
ghost use Rattle.orc_file_reader.specs.FileRows.{FileIs, FirstRefused};
ghost use Rattle.orc_tail.specs.Images.{IsWithinLimits};
ghost use Rattle.orc_tail.specs.Stripes.{AllBefore};
ghost use Rattle.orc_tail.specs.Tails.{IsTail, ReadFault};
ghost use Rattle.orc_tail.specs.declared.tail.Tail.{Tail};
ghost use Rattle.orc_tail.specs.declared.fault.FileFault.TheVariants.{SourceFailed, OutOfMemory};
ghost use Rattle.orc_check.specs.Findings.{Findings};
ghost use Rattle.orc_check.specs.Checking.{CheckFault, HaveOwn, IsWholeOf, IsOfStripes, IsOfCheck};

use crate::file_columns::check_file;
use crate::finding::Finding;
use crate::stripes::check_stripe;
use orc_io::Source;
use orc_stats::{Stat, StatFault};
use orc_tail::{FileFault, Tail, file_statistics, read_tail};
use orc_types::Schema;
use orc_wire::Items;
use std::alloc::{AllocError, Global};

/// Returns the statistics of the whole file, joined from those of its stripes' rows.
fn whole_stats(alloc: Global, schema: &Schema, own: &[Items<Stat>]) -> Result<Vec<Stat>, AllocError>
    requires stripes { HaveOwn schema.now own.now }
    ensures { IfOk result (λ whole. IsWholeOf schema.now own.now whole.items) }
{
    match file_statistics(alloc, schema, own) {
        Ok(whole) => Ok(whole),
        Err(StatFault::OutOfMemory) => Err(AllocError),
        // a column has fewer than 2^31 cells in a stripe, and there are at most 65,536 stripes
        Err(StatFault::CountTooLarge) => unreachable!(),
    }
}

/// Returns the findings of a file with this tail.
fn check_tail<S: Source>(
    alloc: Global,
    source: &mut S,
    tail: &Tail,
) -> Result<Vec<Finding>, FileFault>
    requires within { AllBefore (S.size source.old) tail.now.stripes }
    requires limits { IsWithinLimits tail.now }
    ensures found { IfOk result (λ found. IfSome (S.told source.old) (λ bytes. IsTail bytes tail.now
        → (rows : List Cell) × FileIs bytes tail.now rows × Findings bytes tail.now rows found.items)) }

    ensures fault { IfErr result (λ fault. ReadFault (S.told source.old) fault
        (λ bytes. FirstRefused tail.now.schema bytes 0 tail.now.stripes fault)) }
    ensures named { IfErr result (λ fault. (fault ≡ OutOfMemory)
        ⊎ ((fault ≡ SourceFailed) ⊎ IsOfStripes (length tail.now.stripes) fault)) }
    ensures source { LeavesSource S.told S.size S.failures SourceFailed source.old source.new result }
{
    let mut found = Vec::new(alloc);
    let mut own = Vec::new(alloc);
    let mut bytes = Vec::new(alloc);
    for number in 0..tail.stripes.as_slice().len() {
        let stats = check_stripe(alloc, source, tail, number, &mut bytes, &mut found)?;
        own.push(stats)?;
    }
    let whole = whole_stats(alloc, &tail.schema, &own)?;
    check_file(tail, &whole, &mut found)?;
    Ok(found)
}

/// Checks the stored statistics and row indexes of a file against its rows, and returns the findings (ORC
/// specification, "Column Statistics", "Row Group Index"). They are ordered by stripe, in each stripe by column, and
/// for each column the finding of its statistic comes before those of its row index, which are ordered by group. The
/// findings of the file's statistics come last, by column. The bytes of one stripe are held at a time.
///
/// # Errors
///
/// - The fault of the first test of a tail that the file fails, as from `OrcFile::open`.
/// - `Stripe` with the number of the first stripe that has no rows, and the reason.
/// - `SourceFailed` if a read fails.
/// - `OutOfMemory` if there is no memory.
///
/// The first two mean that the bytes are no file of any rows.
pub fn check<S: Source>(alloc: Global, source: &mut S) -> Result<Vec<Finding>, FileFault>
    // If findings are returned and the source's bytes are known, then these bytes are a file with rows, and the
    // returned findings are exactly those of this file, in order.
    ensures found { IfOk result (λ found. IfSome (S.told source.old)
        (λ bytes. (tail : Tail) × (rows : List Cell) × FileIs bytes tail rows
        × Findings bytes tail rows found.items)) }
    // If the source's bytes are known and are a file with rows, then the findings of this file are returned, or
    // the error is `OutOfMemory` or `SourceFailed`.
    ensures only { IfSome (S.told source.old) (λ bytes. (tail : Tail) (rows : List Cell) → FileIs bytes tail rows
        → MatchResult result
        (λ answered. Findings bytes tail rows answered.items)
        (λ fault. (fault ≡ OutOfMemory) ⊎ (fault ≡ SourceFailed))) }
    // If the source's bytes are known, then an error is `OutOfMemory`, `SourceFailed`, the fault of the first
    // test of a tail that the bytes fail, or `Stripe` with the number of the first stripe that has no rows and
    // the reason, never `OutOfMemory`, why it has none.
    ensures fault { IfErr result (λ fault. ReadFault (S.told source.old) fault (λ bytes. CheckFault bytes fault)) }
    // An error is `SourceFailed`, `OutOfMemory`, the fault of a test of a tail, or `Stripe` with a number below
    // 65,536 and a reason, never `OutOfMemory`, why some bytes are not a stripe with any rows.
    ensures named { IfErr result (λ fault. (fault ≡ SourceFailed) ⊎ IsOfCheck fault) }
    // The source has its former length, and the same is known of its bytes. Its count of failures rises by one with
    // `SourceFailed`, and stays the same otherwise.
    ensures source { LeavesSource S.told S.size S.failures SourceFailed source.old source.new result }
{
    let tail = read_tail(alloc, source)?;
    check_tail(alloc, source, &tail)
}
