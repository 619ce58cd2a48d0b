//! Checks a stripe of a file.
ghost use Rattle.std.specs.Prelude.{◌≡◌, ◌<◌, ◌≤◌, ◌⊎◌, length, OnOk, IfOk, IfErr, IfSome};
ghost use Rattle.orc_io.specs.Leaves.{LeavesSource};
ghost use Rattle.orc_tail.specs.Stripes.{AllBefore, most_bytes, stripe_at, stripes_length, stripe_bytes};
ghost use Rattle.orc_file_reader.specs.FileRows.{StripeRefused};
ghost use Rattle.orc_tail.specs.Tails.{ReadFault};
ghost use Rattle.orc_tail.specs.declared.fault.FileFault.TheVariants.{SourceFailed, OutOfMemory};
ghost use Rattle.orc_check.specs.Findings.{stripe_told};
ghost use Rattle.orc_check.specs.Checking.{IsChecked, IsOfStripe};

use crate::columns::check_columns;
use crate::finding::Finding;
use orc_file_reader::{load_stripe, view_stripe};
use orc_io::Source;
use orc_stats::Stat;
use orc_tail::{FileFault, Tail, stripe_fault};
use orc_wire::Items;
use std::alloc::Global;

/// Returns the statistics that the tail has of a stripe's columns.
fn told_of(tail: &Tail, number: usize) -> &[Stat]
    ensures { result.now ≡ stripe_told tail.now number }
{
    match tail.stripe_stats.as_slice().get(number) {
        Some(told) => told.as_slice(),
        None => &[],
    }
}

/// Adds the findings of stripe `number`, and returns the statistics of its columns' cells.
pub(crate) fn check_stripe<S: Source>(
    alloc: Global,
    source: &mut S,
    tail: &Tail,
    number: usize,
    bytes: &mut Vec<u8>,
    found: &mut Vec<Finding>,
) -> Result<Items<Stat>, FileFault>
    requires there { number < length tail.now.stripes }
    requires within { AllBefore (S.size source.old) tail.now.stripes }
    requires most { stripes_length tail.now.stripes ≤ most_bytes }
    ensures found { IfOk result
        (λ stats. IsChecked tail.now number bytes.new.items found.old.items found.new.items stats) }
    ensures bytes { OnOk result (IfSome (S.told source.old)
        (λ all. bytes.new.items ≡ stripe_bytes (stripe_at tail.now.stripes number) all)) }
    ensures fault { IfErr result (λ fault. ReadFault (S.told source.old) fault
        (λ all. StripeRefused tail.now.schema all number (stripe_at tail.now.stripes number) fault)) }
    ensures named { IfErr result (λ fault. (fault ≡ OutOfMemory)
        ⊎ ((fault ≡ SourceFailed) ⊎ IsOfStripe number fault)) }
    ensures source { LeavesSource S.told S.size S.failures SourceFailed source.old source.new result }
{
    load_stripe(source, tail, number, bytes)?;
    let view = view_stripe(alloc, tail, number, bytes)?;
    match check_columns(alloc, number, told_of(tail, number), &view, found) {
        Ok(stats) => Ok(stats),
        Err(cause) => Err(stripe_fault(number, cause)),
    }
}
