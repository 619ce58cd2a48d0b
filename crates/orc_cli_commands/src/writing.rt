//! The command that writes a file from lines.
ghost use Rattle.std.specs.Prelude.{◌≡◌, ◌≢◌, List, ℕ, OnOk};
ghost use Rattle.orc_cli_commands.specs.Places.{CanFail};
ghost use Rattle.orc_cli_commands.specs.Commands.{AnswersWrite};
ghost use Rattle.orc_cli_commands.specs.Answers.{AnswersWriting};

use crate::ending::Ending;
use crate::outcome::Outcome;
use crate::place::Place;
use orc_cli_output::CliFault;
use orc_cli_write::{LineReader, write_lines};
use orc_io::Sink;
use orc_row_batch::Options;
use std::alloc::Global;

/// Writes a file from lines of JSON, and returns the output beside the result.
fn write_rows<L: LineReader, O: Sink>(
    alloc: Global,
    schema: &str,
    options: Options,
    lines: &mut L,
    out: O,
) -> (Result<Outcome, CliFault>, O)
    ensures { AnswersWrite schema.now options (L.remaining lines.old) (CanFail L.failures) (CanFail O.failures)
        (O.told out) (O.told result.1) result.0 }
{
    match write_lines(alloc, schema, options, lines, out) {
        Ok((_, out)) => (Ok(Outcome::Done), out),
        Err((fault, out)) => (Err(fault), out),
    }
}

/// Writes a new file from the lines of another one, which is read as the new file is written.
pub(crate) fn write_file<'a, P: Place<'a>>(
    alloc: Global,
    place: &mut P,
    schema: &str,
    options: Options,
    input: &'a str,
    output: &'a str,
) -> Result<Outcome, Ending>
    ensures answered { AnswersWriting (P.told place.old) (P.lacks place.old) (P.made place.new) (place.new ≡ place.old)
        P.Lines.failures P.Output.failures result schema.now options input.now output.now }
    ensures durable { OnOk result (P.durable place.new output.now) }
    ensures stays { P.told place.new ≡ P.told place.old }
    ensures others { (path : List ℕ) → path ≢ output.now → P.made place.new path ≡ P.made place.old path }
{
    let mut lines = place.lines(alloc, input)?;
    let out = place.make(alloc, output)?;
    let (written, out) = write_rows(alloc, schema, options, &mut lines, out);
    place.close(output, out)?;
    Ok(written?)
}
