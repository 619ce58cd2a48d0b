//! The commands that print: numbers of an integer stream, or rows, tail or findings of one file.
ghost use Rattle.std.specs.Prelude.{◌≡◌, List, ℕ};
ghost use Rattle.orc_cli_commands.specs.Places.{CanFail};
ghost use Rattle.orc_cli_commands.specs.Commands.{AnswersInts, AnswersRows, AnswersShow, AnswersCheck};
ghost use Rattle.orc_cli_commands.specs.Answers.{EndsAs, AnswersFile};

use crate::ending::Ending;
use crate::outcome::Outcome;
use crate::place::Place;
use orc_cli_check::check_to;
use orc_cli_ints::ints_to;
use orc_cli_output::CliFault;
use orc_cli_rows::rows_to;
use orc_cli_show::show_to;
use orc_io::Source;
use orc_rle::{Rle, Sign};
use std::alloc::Global;
use std::io::Write;

/// Prints the numbers of an integer stream.
pub(crate) fn print_ints<W: Write>(
    alloc: Global,
    rle: Rle,
    sign: Sign,
    hex: &str,
    out: &mut W,
) -> Result<Outcome, CliFault>
    ensures { AnswersInts rle sign hex.now (W.contents out.old) (W.contents out.new) result }
{
    match ints_to(alloc, rle, sign, hex, out) {
        Ok(()) => Ok(Outcome::Done),
        Err(fault) => Err(fault),
    }
}

/// Prints the rows of a source.
fn print_rows<S: Source + Drop, W: Write>(
    alloc: Global,
    source: S,
    from: Option<&str>,
    out: &mut W,
) -> Result<Outcome, CliFault>
    ensures { AnswersRows (S.told source) from.entry (CanFail S.failures)
        (W.contents out.old) (W.contents out.new) result }
{
    match rows_to(alloc, source, from, out) {
        Ok(_) => Ok(Outcome::Done),
        Err((fault, _)) => Err(fault),
    }
}

/// Prints the tail of a source.
fn print_outline<S: Source + Drop, W: Write>(
    alloc: Global,
    source: S,
    out: &mut W,
) -> Result<Outcome, CliFault>
    ensures { AnswersShow (S.told source) (CanFail S.failures) (W.contents out.old) (W.contents out.new) result }
{
    match show_to(alloc, source, out) {
        Ok(_) => Ok(Outcome::Done),
        Err((fault, _)) => Err(fault),
    }
}

/// Prints the findings of a source.
fn print_findings<S: Source + Drop, W: Write>(
    alloc: Global,
    source: S,
    out: &mut W,
) -> Result<Outcome, CliFault>
    ensures { AnswersCheck (S.told source) (CanFail S.failures) (W.contents out.old) (W.contents out.new) result }
{
    match check_to(alloc, source, out) {
        Ok((findings, _)) => Ok(Outcome::of_findings(findings)),
        Err((fault, _)) => Err(fault),
    }
}

/// Prints the rows of the file at a path, from the stripe and group on that a text names, if there is one.
pub(crate) fn print_rows_at<'a, P: Place<'a>, W: Write>(
    alloc: Global,
    place: &P,
    path: &'a str,
    from: Option<&str>,
    out: &mut W,
) -> Result<Outcome, Ending>
    ensures { AnswersFile (P.told place.now) (P.lacks place.now) (W.contents out.old) (W.contents out.new)
        result path.now (AnswersRows (P.told place.now path.now) from.entry (CanFail P.Input.failures)
        (W.contents out.old) (W.contents out.new)) }
{
    let source = place.open(path)?;
    Ok(print_rows(alloc, source, from, out)?)
}

/// Prints the tail of the file at a path.
pub(crate) fn print_outline_at<'a, P: Place<'a>, W: Write>(
    alloc: Global,
    place: &P,
    path: &'a str,
    out: &mut W,
) -> Result<Outcome, Ending>
    ensures { AnswersFile (P.told place.now) (P.lacks place.now) (W.contents out.old) (W.contents out.new)
        result path.now (AnswersShow (P.told place.now path.now) (CanFail P.Input.failures)
        (W.contents out.old) (W.contents out.new)) }
{
    let source = place.open(path)?;
    Ok(print_outline(alloc, source, out)?)
}

/// Prints the findings of the file at a path.
pub(crate) fn print_findings_at<'a, P: Place<'a>, W: Write>(
    alloc: Global,
    place: &P,
    path: &'a str,
    out: &mut W,
) -> Result<Outcome, Ending>
    ensures { AnswersFile (P.told place.now) (P.lacks place.now) (W.contents out.old) (W.contents out.new)
        result path.now (AnswersCheck (P.told place.now path.now) (CanFail P.Input.failures)
        (W.contents out.old) (W.contents out.new)) }
{
    let source = place.open(path)?;
    Ok(print_findings(alloc, source, out)?)
}
