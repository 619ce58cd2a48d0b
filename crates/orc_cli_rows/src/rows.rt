//! The lines of a file's stripes.
ghost use Rattle.std.specs.Prelude.{◌≡◌, ◌<◌, ◌≤◌, ℕ, List, length, drop, OnOk, IfErr, IfSome};
ghost use Rattle.std.specs.Io.KnownBytes.{Appends};
ghost use Rattle.orc_io.specs.Leaves.{LeavesSource};
ghost use Rattle.orc_tail.specs.Caps.{no_cap};
ghost use Rattle.orc_tail.specs.Stripes.{stripe_at, stripe_bytes};
ghost use Rattle.orc_tail.specs.declared.fault.FileFault.TheVariants.{SourceFailed};
ghost use Rattle.orc_cli_rows.specs.Rows.{AreLinesOfStripes, EndsIn, RefusesRows};
ghost use Rattle.orc_cli_rows.specs.OneStripe.{AreLinesAt, EndsAtStripe};
ghost use Rattle.orc_cli_rows.specs.Plans.{IsPlanOf};
ghost use Rattle.orc_cli_output.specs.declared.fault.CliFault.TheVariants.{File};

use crate::one_stripe::print_view;
use crate::plan::Plan;
use orc_cli_output::CliFault;
use orc_file_reader::{OrcFile, view_stripe};
use orc_io::Source;
use std::alloc::Global;
use std::io::Write;

/// Prints the lines of the stripe with this number, or of its rows from a group on, once they are known to be rows.
pub(crate) fn print_stripe<S: Source, W: Write>(
    alloc: Global,
    file: &mut OrcFile<S>,
    plan: Plan<'_>,
    number: usize,
    from: Option<u32>,
    bytes: &mut Vec<u8>,
    out: &mut W,
) -> Result<(), CliFault>
    requires there { number < length file.old.tail.stripes }
    requires planned { IsPlanOf file.old.tail.schema plan }
    requires uncapped { file.old.cap ≡ no_cap }
    ensures tail { file.new.tail ≡ file.old.tail }
    ensures cap { file.new.cap ≡ file.old.cap }
    ensures written { OnOk result (IfSome (S.told file.old.source) (λ all. (own : List ℕ)
        × AreLinesAt file.old.tail number (stripe_bytes (stripe_at file.old.tail.stripes number) all) from own
        × Appends (W.contents out.old) (W.contents out.new) own)) }

    ensures refused { IfErr result (λ fault. IfSome (S.told file.old.source) (λ all.
        EndsAtStripe all file.old.tail number from (W.contents out.old) (W.contents out.new) fault)) }
    ensures source { LeavesSource S.told S.size S.failures (File SourceFailed) file.old.source file.new.source result }
    ensures layer { IfErr result RefusesRows }
{
    file.load(number, bytes)?;
    let view = view_stripe(alloc, file.tail(), number, bytes)?;
    print_view(alloc, plan, number, &view, from, out)
}

/// Prints the lines of a file's rows from the stripe with this number on.
pub(crate) fn print_rows<S: Source, W: Write>(
    alloc: Global,
    file: &mut OrcFile<S>,
    plan: Plan<'_>,
    first: usize,
    bytes: &mut Vec<u8>,
    out: &mut W,
) -> Result<(), CliFault>
    requires some { first ≤ length file.old.tail.stripes }
    requires planned { IsPlanOf file.old.tail.schema plan }
    requires uncapped { file.old.cap ≡ no_cap }
    ensures written { OnOk result (IfSome (S.told file.old.source) (λ all. (lines : List ℕ)
        × AreLinesOfStripes file.old.tail.schema all (drop first file.old.tail.stripes) lines
        × Appends (W.contents out.old) (W.contents out.new) lines)) }

    ensures refused { IfErr result (λ fault. IfSome (S.told file.old.source) (λ all.
        EndsIn all file.old.tail first (W.contents out.old) (W.contents out.new) fault)) }
    ensures source { LeavesSource S.told S.size S.failures (File SourceFailed) file.old.source file.new.source result }
    ensures layer { IfErr result RefusesRows }
{
    for number in first..file.tail().stripes.as_slice().len() {
        print_stripe(alloc, file, plan, number, None, bytes, out)?;
    }
    Ok(())
}
