//! `orcm check`: checks statistics and row indexes against the rows.
ghost use Rattle.std.specs.Prelude.{◌≡◌, ◌≢◌, ◌⊎◌, List, length, IfOk, OnOk, IfErr, IfSome, string_bytes};
ghost use Rattle.std.specs.Io.KnownBytes.{Appends, Keeps};
ghost use Rattle.orc_values.specs.Cells.{Cell};
ghost use Rattle.orc_io.specs.Leaves.{HandsBackSource};
ghost use Rattle.orc_file_reader.specs.FileRows.{FileIs};
ghost use Rattle.orc_tail.specs.declared.fault.FileFault.TheVariants.{SourceFailed, OutOfMemory};
ghost use Rattle.orc_tail.specs.declared.tail.Tail.{Tail};
ghost use Rattle.orc_cli_output.specs.Output.{AppendsPart, IsWantOfMemory, write_failed};
ghost use Rattle.orc_cli_output.specs.declared.fault.CliFault.TheVariants.{File};
ghost use Rattle.orc_cli_check.specs.Lines.{finding_lines, IsFoundOf, IsSourceOrMemory, IsWantOfCheck, IsNotChecked};

use orc_check::{Finding, check};
use orc_cli_output::{CliFault, write_out};
use orc_io::Source;
use std::alloc::{AllocError, Global};
use std::io::Write;

/// Returns the lines of findings, one per finding.
fn lines_of(alloc: Global, found: &[Finding]) -> Result<String, AllocError>
    ensures { IfOk result (λ lines. string_bytes lines ≡ finding_lines found.now) }
{
    let mut lines = String::new(alloc);
    for finding in found {
        write!(lines, "{finding}\n")?;
    }
    Ok(lines)
}

/// Prints one line per finding, once all lines are made.
fn print_findings<W: Write>(alloc: Global, found: &[Finding], out: &mut W) -> Result<(), CliFault>
    ensures written { OnOk result (Appends (W.contents out.old) (W.contents out.new) (finding_lines found.now)) }
    ensures refused { IfErr result (λ fault.
        ((fault ≡ write_failed) × AppendsPart (W.contents out.old) (W.contents out.new) (finding_lines found.now))
        ⊎ ((fault ≡ File OutOfMemory) × Keeps (W.contents out.old) (W.contents out.new))) }
{
    let lines = lines_of(alloc, found)?;
    write_out(out, lines.as_bytes())
}

/// Checks a file's statistics and row indexes against its rows, and prints its findings, one per line: the finding's
/// name and its numbers, separated by blanks. Nothing is printed before the whole file was checked. Returns the
/// number of findings, and the source.
///
/// # Errors
///
/// The source is returned beside the error, which is `File` with
///
/// - a fault of `check`, of the file's bytes, of the source or of memory; then nothing was printed;
/// - `OutOfMemory` if there is no memory for the lines; then nothing was printed;
/// - `WriteFailed` if the output failed; then a proper prefix of the lines was printed.
pub fn check_to<S: Source, W: Write>(
    alloc: Global,
    source: S,
    out: &mut W,
) -> Result<(usize, S), (CliFault, S)>
    // If the call succeeds and the source's bytes are known, then these bytes are a file with rows, the number
    // of the file's findings is returned, and the output has got exactly one line for each finding, in order,
    // if the output's bytes are known.
    ensures written { IfOk result (λ done. IfSome (S.told source) (λ bytes. IsFoundOf bytes
        (λ found. (done.0 ≡ length found) × Appends (W.contents out.old) (W.contents out.new) (finding_lines found)))) }
    // If the source's bytes are known and are a file with rows, then an error is `WriteFailed`, `SourceFailed`
    // or `OutOfMemory`, each that of `File`.
    ensures only { IfSome (S.told source) (λ bytes. (tail : Tail) (rows : List Cell) → FileIs bytes tail rows
        → IfErr result (λ e. (e.0 ≡ write_failed) ⊎ IsSourceOrMemory e.0)) }

    // If the source's bytes are known, then an error is `WriteFailed`, `SourceFailed` or `OutOfMemory`, each
    // that of `File`, or it is `File` with the fault of the first test of a tail that the bytes fail, or with
    // `Stripe`, the number of the first stripe that has no rows and the reason.
    ensures refused { IfErr result (λ e. IfSome (S.told source)
        (λ bytes. e.0 ≢ write_failed → IsNotChecked bytes e.0)) }
    // If the call fails with any error but `WriteFailed`, then the output's bytes are unchanged if they are
    // known.
    ensures nothing { IfErr result (λ e. e.0 ≢ write_failed → Keeps (W.contents out.old) (W.contents out.new)) }
    // If the error is `WriteFailed` and the source's bytes are known, then these bytes are a file with rows,
    // and the output has got a proper prefix of the lines of the file's findings if the output's bytes are
    // known.
    ensures part { IfErr result (λ e. e.0 ≡ write_failed → IfSome (S.told source) (λ bytes. IsFoundOf bytes
        (λ found. AppendsPart (W.contents out.old) (W.contents out.new) (finding_lines found)))) }
    // The source, which a success and an error return, has its former length, and the same is known of its
    // bytes. Its count of failures rises by one with `SourceFailed`, and stays the same after a success and after
    // any other error.
    ensures source { HandsBackSource S.told S.size S.failures (File SourceFailed) (λ done. done.1) source result }
    // If the error is `OutOfMemory`, then it is that of `File`.
    ensures layer { IfErr result (λ e. IsWantOfMemory e.0 → IsWantOfCheck e.0) }
{
    let mut source = source;
    match check(alloc, &mut source) {
        Ok(found) => match print_findings(alloc, &found, out) {
            Ok(()) => Ok((found.len(), source)),
            Err(fault) => Err((fault, source)),
        },
        Err(fault) => Err((CliFault::File(fault), source)),
    }
}
