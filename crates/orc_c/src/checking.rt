//! `orcm_check`: checks the statistics and row indexes of a file in memory.
ghost use Rattle.std.specs.Prelude.{◌≡◌, ◌≢◌, IfOk, IfErr};
ghost use Rattle.orc_cli_check.specs.Lines.{finding_lines, IsFoundOf};
ghost use Rattle.orc_c.specs.Answers.{HasPut, HasTold};
ghost use Rattle.orc_c.specs.Refusals.{NotChecked, OfCommand};

use crate::answer::Answer;
use crate::fault::Fault;
use crate::memory::told_of;
use crate::putting::{put, tell};
use orc_cli_check::check_to;
use orc_cli_output::CliFault;
use orc_io::SliceSource;
use std::alloc::Global;

/// Returns the lines of a file's findings.
fn findings_of(alloc: Global, file: &[u8]) -> Result<Vec<u8>, CliFault>
    ensures found { IfOk result (λ lines. IsFoundOf file.now (λ found. lines.items ≡ finding_lines found)) }
    ensures refused { IfErr result (NotChecked file.now) }
{
    let mut lines = Vec::new(alloc);
    match check_to(alloc, SliceSource::new(file), &mut lines) {
        Ok(_) => Ok(lines),
        Err((fault, _)) => Err(told_of(fault)),
    }
}

/// Checks the statistics and row indexes of a file against its rows, and puts a line for each finding into the
/// buffer. If there is no finding, then no byte is put.
///
/// # Errors
///
/// The errors of `check`, in the layer of files: the reason why `file` can't be read, or `OutOfMemory`.
#[unsafe(no_mangle)]
pub extern "C" fn orcm_check(alloc: Global, file: &[u8], out: &mut [u8]) -> Answer
    // If the returned layer is 0, then `file` is a file with rows. The returned length is that of the lines of the
    // file's findings, in order. The buffer begins with these lines, as far as it has room, and is unchanged after
    // them.
    ensures found { result.layer ≡ 0 → HasPut out.old out.new result
        (λ lines. IsFoundOf file.now (λ found. lines ≡ finding_lines found)) }
    // If the returned layer isn't 0, then layer and number are those of `OutOfMemory` in the layer of files, or of
    // the reason why `file` can't be checked, and always of `OutOfMemory` if `file` is a file with rows. The returned
    // length is that of a text. The buffer begins with this text, as far as it has room, and is unchanged after it.
    ensures refused { result.layer ≢ 0 → HasTold out.old out.new result (OfCommand (NotChecked file.now)) }
{
    match findings_of(alloc, file) {
        Ok(lines) => put(&lines, out),
        Err(fault) => tell(alloc, Fault::Command(fault), out),
    }
}
