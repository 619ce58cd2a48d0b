//! The command that joins files into one.
ghost use Rattle.std.specs.Prelude.{◌≡◌, ◌≢◌, List, ℕ, map, Some, IsSome, IsErr, IfOk, IfErr, OnOk, ◌⊎◌};
ghost use Rattle.std.specs.List.{All, Any};
ghost use Rattle.orc_tail.specs.declared.fault.FileFault.TheVariants as file;
ghost use Rattle.orc_cli_output.specs.declared.fault.CliFault.TheVariants.{File};
ghost use Rattle.orc_cli_commands.specs.Places.{CanFail, CanFailAt};
ghost use Rattle.orc_cli_commands.specs.Commands.{AnswersMerge};
ghost use Rattle.orc_cli_commands.specs.Answers.{AnswersJoining};

use crate::ending::Ending;
use crate::outcome::Outcome;
use crate::place::Place;
use orc_cli_output::CliFault;
use orc_io::{Sink, Source};
use orc_merger::{MergeFault, merge};
use orc_tail::FileFault;
use std::alloc::Global;

/// Opens all inputs, in order.
fn open_all<'a, P: Place<'a>>(
    alloc: Global,
    place: &P,
    paths: &[&'a str],
) -> Result<Vec<P::Input>, CliFault>
    ensures told { IfOk result (λ sources. map P.Input.told sources.items
        ≡ map (P.told place.now) (map (λ path. path.now) paths.now)) }
    ensures lacking { Any (P.lacks place.now) (map (λ path. path.now) paths.now) → IsErr result }
    ensures fault { IfErr result (λ fault. (fault ≡ File file.OutOfMemory) ⊎ ((fault ≡ File file.SourceFailed)
        × (All (λ path. IsSome (P.told place.now path)) (map (λ path. path.now) paths.now) → ⊥))) }
{
    let mut sources = Vec::new(alloc);
    for path in paths {
        let source = place.open(path)?;
        match sources.push(source) {
            Ok(()) => {}
            Err(_) => return Err(CliFault::File(FileFault::OutOfMemory)),
        }
    }
    Ok(sources)
}

/// Joins the sources, in order.
fn join<I: Source, O: Sink>(
    alloc: Global,
    sources: &mut [I],
    out: &mut O,
) -> Result<Outcome, MergeFault>
    ensures { AnswersMerge (map I.told sources.old) (CanFailAt I.failures) (CanFail O.failures)
        (O.told out.old) (O.told out.new) result }
{
    merge(alloc, sources, out)?;
    Ok(Outcome::Done)
}

/// Joins files into a new one. The new file is made once all inputs are found.
pub(crate) fn join_files<'a, P: Place<'a>>(
    alloc: Global,
    place: &mut P,
    output: &'a str,
    inputs: &[&'a str],
) -> Result<Outcome, Ending>
    ensures answered { AnswersJoining (P.told place.old) (P.lacks place.old) (P.made place.new) (place.new ≡ place.old)
        P.Input.failures P.Output.failures result output.now (map (λ path. path.now) inputs.now) }
    ensures durable { OnOk result (P.durable place.new output.now) }
    ensures stays { P.told place.new ≡ P.told place.old }
    ensures others { (path : List ℕ) → path ≢ output.now → P.made place.new path ≡ P.made place.old path }
{
    let mut sources = open_all(alloc, place, inputs)?;
    let mut out = place.make(alloc, output)?;
    let joined = join(alloc, &mut sources, &mut out);
    match place.close(output, out) {
        Ok(()) => match joined {
            Ok(outcome) => Ok(outcome),
            Err(fault) => Err(Ending::NotMerged(fault)),
        },
        Err(_) => Err(Ending::NotMerged(MergeFault::WriteFailed)),
    }
}
