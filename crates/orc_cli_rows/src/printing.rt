//! `orcm rows`: a file's rows as JSON, all of them or those from a group on.
ghost use Rattle.std.specs.Prelude.{◌≡◌, ℕ, List, Option, MatchResult, None, OnOk, IfErr, IfSome};
ghost use Rattle.std.specs.Io.KnownBytes.{Appends, Keeps};
ghost use Rattle.orc_values.specs.Cells.{Cell};
ghost use Rattle.orc_io.specs.Leaves.{LeavesSource, HandsBackSource};
ghost use Rattle.orc_tail.specs.Caps.{no_cap};
ghost use Rattle.orc_file_reader.specs.FileRows.{FileIs};
ghost use Rattle.orc_tail.specs.declared.fault.FileFault.TheVariants.{SourceFailed};
ghost use Rattle.orc_tail.specs.declared.tail.Tail.{Tail};
ghost use Rattle.orc_cli_output.specs.Output.{IsOutsideFile, IsWantOfMemory};
ghost use Rattle.orc_cli_output.specs.declared.fault.CliFault.TheVariants.{File};
ghost use Rattle.orc_cli_rows.specs.Rows.{HaveJson, RefusesRows, IsWantOfRows};
ghost use Rattle.orc_cli_rows.specs.FromGroup.{AreLinesFromGroup, EndsFrom};
ghost use Rattle.orc_cli_rows.specs.Plans.{IsPlanOf};
ghost use Rattle.orc_cli_rows.specs.Printed.{IsAsked, IsNotAsked, AreLinesOfFile, ArePrinted, PrintingEnds, PrintingStops, RefusesFile, RefusesPlace};

use crate::plan::{Plan, plan_of};
use crate::rows::{print_rows, print_stripe};
use crate::start::{Start, start_of};
use orc_cli_output::CliFault;
use orc_file_reader::OrcFile;
use orc_io::Source;
use orc_json::RowPrinter;
use orc_json_rows::JsonFault;
use orc_tail::FileFault;
use std::alloc::Global;
use std::io::Write;

/// Where reading starts, if a text says so.
///
/// Refusal: `Json` with `Syntax` where the text isn't two numbers with a colon between them, of decimal digits alone,
/// each at most 4,294,967,295.
fn asked_of(from: Option<&str>) -> Result<Option<Start>, CliFault>
    ensures { MatchResult result (IsAsked from.entry) (IsNotAsked from.entry) }
{
    match from {
        None => Ok(None),
        Some(text) => match start_of(text) {
            Some(start) => Ok(Some(start)),
            None => Err(CliFault::Json(JsonFault::Syntax)),
        },
    }
}

/// Prints the lines of a file's rows from a group of a stripe on.
fn print_from<S: Source, W: Write>(
    alloc: Global,
    file: &mut OrcFile<S>,
    plan: Plan<'_>,
    start: Start,
    out: &mut W,
) -> Result<(), CliFault>
    requires planned { IsPlanOf file.old.tail.schema plan }
    requires uncapped { file.old.cap ≡ no_cap }
    ensures written { OnOk result (IfSome (S.told file.old.source) (λ all. (lines : List ℕ)
        × AreLinesFromGroup all file.old.tail start.stripe start.group lines
        × Appends (W.contents out.old) (W.contents out.new) lines)) }

    ensures refused { IfErr result (λ fault. IfSome (S.told file.old.source) (λ all.
        EndsFrom all file.old.tail start.stripe start.group (W.contents out.old) (W.contents out.new) fault)) }
    ensures source { LeavesSource S.told S.size S.failures (File SourceFailed) file.old.source file.new.source result }
    ensures layer { IfErr result RefusesRows }
{
    let number = start.stripe as usize;
    if number >= file.tail().stripes.as_slice().len() {
        return Err(CliFault::File(FileFault::BadStripe(number)));
    }
    let mut bytes = Vec::new(alloc);
    print_stripe(
        alloc,
        file,
        plan,
        number,
        Some(start.group),
        &mut bytes,
        out,
    )?;
    print_rows(alloc, file, plan, number + 1, &mut bytes, out)
}

/// Prints the lines of a file's rows from a place on, or all of them.
fn print_lines<S: Source, W: Write>(
    alloc: Global,
    file: &mut OrcFile<S>,
    plan: Plan<'_>,
    start: Option<Start>,
    out: &mut W,
) -> Result<(), CliFault>
    requires planned { IsPlanOf file.old.tail.schema plan }
    requires uncapped { file.old.cap ≡ no_cap }
    ensures written { OnOk result (IfSome (S.told file.old.source) (λ all. (lines : List ℕ)
        × AreLinesOfFile all file.old.tail start lines
        × Appends (W.contents out.old) (W.contents out.new) lines)) }

    ensures refused { IfErr result (λ fault. IfSome (S.told file.old.source) (λ all.
        PrintingEnds all file.old.tail start (W.contents out.old) (W.contents out.new) fault)) }
    ensures source { LeavesSource S.told S.size S.failures (File SourceFailed) file.old.source file.new.source result }
    ensures layer { IfErr result RefusesRows }
{
    match start {
        None => print_rows(alloc, file, plan, 0, &mut Vec::new(alloc), out),
        Some(start) => print_from(alloc, file, plan, start, out),
    }
}

/// The same with a printer of the file's rows, which is made first: nothing is out where there is no memory for it.
fn print_opened<S: Source, W: Write>(
    alloc: Global,
    file: &mut OrcFile<S>,
    start: Option<Start>,
    out: &mut W,
) -> Result<(), CliFault>
    requires { file.old.cap ≡ no_cap }
    ensures written { OnOk result (IfSome (S.told file.old.source) (λ all. (lines : List ℕ)
        × AreLinesOfFile all file.old.tail start lines
        × Appends (W.contents out.old) (W.contents out.new) lines)) }

    ensures refused { IfErr result (λ fault. IfSome (S.told file.old.source) (λ all.
        PrintingStops all file.old.tail start (W.contents out.old) (W.contents out.new) fault)) }
    ensures source { LeavesSource S.told S.size S.failures (File SourceFailed) file.old.source file.new.source result }
    ensures layer { IfErr result RefusesRows }
{
    let printer = RowPrinter::new(alloc, file.schema())?;
    print_lines(alloc, file, plan_of(&printer), start, out)
}

/// What is printed of a file from a place on, or all of it.
fn print_file<S: Source, W: Write>(
    alloc: Global,
    source: S,
    start: Option<Start>,
    out: &mut W,
) -> Result<S, (CliFault, S)>
    ensures written { OnOk result (IfSome (S.told source)
        (λ bytes. ArePrinted bytes start (W.contents out.old) (W.contents out.new))) }

    ensures refused { IfErr result (λ e. IfSome (S.told source)
        (λ bytes. RefusesFile bytes start (W.contents out.old) (W.contents out.new) e.0)) }
    ensures source { HandsBackSource S.told S.size S.failures (File SourceFailed) (λ back. back) source result }
    ensures layer { IfErr result (λ e. RefusesRows e.0) }
{
    match OrcFile::open(alloc, source) {
        Ok(mut file) => {
            let printed = print_opened(alloc, &mut file, start, out);
            let (_, source) = file.into_parts();
            match printed {
                Ok(()) => Ok(source),
                Err(fault) => Err((fault, source)),
            }
        }
        Err((fault, source)) => Err((CliFault::File(fault), source)),
    }
}

/// Prints a line for each row of a file, in order: the row's JSON without blanks. A text such as
/// `2:0`, two numbers of decimal digits alone with a colon between, each below 2^32, names a stripe
/// and a group of it, from which on rows are printed: those of that stripe from the group's first
/// row on, and those of all stripes behind it. What stands in the stripes before has no part in the
/// answer. A stripe's lines are written once it is known to have rows, from the group on where one is
/// asked for: 8 MiB of them are held until its end is seen; where it has more, it is read to its end
/// first, and then its lines are written, those that were held and the others as they are made, for
/// which no memory is wanted. So after a refusal in a stripe the lines of those before it stand, and
/// no others. The bytes of one stripe and so many of its lines are held at a time; but where a
/// struct of the schema names a field twice, the rows of the stripe where reading begins at a group.
/// The source is handed back.
///
/// Where the stripe doesn't start at the group, since positions of its entries are wrong, the lines
/// are those of the rows of the schema that stand behind these positions, and a fault that is met
/// there is one of the streams from them on.
///
/// Refusals, in this order: `Json` with `Syntax` where the text names no place, before the source
/// is read; `File` where the bytes are no file; `File` with `BadStripe` where the stripe isn't
/// there; then, stripe by stripe, `File` with `Stripe` where the stripe has no rows, or no such
/// group, or isn't read from its positions on, and `Json` with `DuplicateField` where it has rows
/// and a struct of the schema names a field twice. Beside these `File` with `WriteFailed` and a
/// part of a stripe's lines written, `SourceFailed` where the source failed, or `OutOfMemory`,
/// which may be `Json`'s too, for a row's text.
///
/// After a refusal from a group on nothing is out where the file isn't opened, the stripe isn't
/// there or isn't read from the group on, its rows there have no JSON, or the source or memory
/// failed there; a part of its lines from the group on where the output failed; or all of these,
/// and behind them what is out where a later stripe is refused.
pub fn rows_to<S: Source, W: Write>(
    alloc: Global,
    source: S,
    from: Option<&str>,
    out: &mut W,
) -> Result<S, (CliFault, S)>
    // If the call succeeds and the source's bytes are known, then these bytes have a tail, and the output has
    // got exactly the lines of rows, in order, if the output's bytes are known. Without `from` these are all
    // rows of the file. Otherwise `from` names a stripe and a group, and these are the rows after the group's
    // positions in this stripe, followed by the rows of all later stripes. If the stripe starts at the group
    // with some rows, the rows after the positions are these, from the group's first row on.
    ensures written { OnOk result (IfSome (S.told source) (λ bytes. (start : Option Start) × IsAsked from.entry start
        × ArePrinted bytes start (W.contents out.old) (W.contents out.new))) }
    // If there is no `from`, and the source's bytes are known and are a file with rows that have JSON, then an
    // error is `WriteFailed`, `SourceFailed` or `OutOfMemory`.
    ensures only { from.entry ≡ None → IfSome (S.told source) (λ bytes. (tail : Tail) (rows : List Cell)
        → FileIs bytes tail rows → HaveJson tail.schema rows
        → IfErr result (λ e. IsOutsideFile e.0)) }

    // If the source's bytes are known, then an error is one of these: `Syntax`, if `from` names no stripe and
    // group; the fault of the first test of a tail that the bytes fail; `BadStripe`, if the file lacks the
    // stripe that `from` names; for the first stripe that fails, `Stripe` with the reason why it has no rows or
    // isn't read from the named group on, or `DuplicateField` if its rows have no JSON; `WriteFailed`;
    // `SourceFailed`; or `OutOfMemory`. If the output's bytes are known, the output has got exactly the lines
    // of all stripes before the one that failed, from the named group on if there is one, and none if no stripe
    // was reached. After `WriteFailed` it has also got a proper prefix of the lines of the stripe that failed.
    ensures refused { IfErr result (λ e. IfSome (S.told source)
        (λ bytes. RefusesPlace bytes from.entry (W.contents out.old) (W.contents out.new) e.0)) }
    // If `from` is a text that names no stripe and group, then the error is `Syntax`, the source's count of
    // failures is unchanged, and so are the output's bytes if they are known.
    ensures unread { ((start : Option Start) → IsAsked from.entry start → ⊥)
        → MatchResult result (λ _. ⊥) (λ e. IsNotAsked from.entry e.0
        × (S.failures e.1 ≡ S.failures source)
        × Keeps (W.contents out.old) (W.contents out.new)) }
    // The source, which a success and an error return, has its former length, and the same is known of its
    // bytes. Its count of failures rises by one with `SourceFailed`, and stays the same after a success and after
    // any other error.
    ensures source { HandsBackSource S.told S.size S.failures (File SourceFailed) (λ back. back) source result }
    // If the error is `OutOfMemory`, then it is that of `Json` or that of `File`.
    ensures layer { IfErr result (λ e. IsWantOfMemory e.0 → IsWantOfRows e.0) }
{
    match asked_of(from) {
        Ok(start) => print_file(alloc, source, start, out),
        Err(fault) => Err((fault, source)),
    }
}
