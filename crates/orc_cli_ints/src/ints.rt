//! `orcm ints`: prints the numbers of an integer stream.
ghost use Rattle.std.specs.Prelude.{◌≡◌, ◌≢◌, ℤ, List, [], ◌∷◌, ◌++◌, ◌⊎◌, IfOk, OnOk, IfErr, IsErrAnd, MatchResult, string_bytes};
ghost use Rattle.std.specs.Io.KnownBytes.{Appends, Keeps};
ghost use Rattle.orc_cli_ints.specs.Ints.{numbers, number_line, IsIntegerStream, StopsIntegers, DigitsSpellInts, StopsInts, IsNoHex, IsWantOfInts, RefusesDigits, RefusesInts};
ghost use Rattle.orc_cli_output.specs.Output.{AppendsPart, IsOutputOrMemory, IsWantOfMemory, write_failed};
ghost use Rattle.orc_cli_output.specs.declared.fault.CliFault.TheVariants.{Run, Json};
ghost use Rattle.orc_json_rows.specs.declared.json_fault.JsonFault.TheVariants as json;
ghost use Rattle.orc_rle.specs.declared.fault.RunFault.{RunFault};
ghost use Rattle.orc_rle.specs.declared.fault.RunFault.TheVariants.{OutOfMemory as RunOutOfMemory};
ghost use Rattle.orc_rle.specs.Stream.{Refuses};

use hex::FromHexError;
use orc_cli_output::{CliFault, write_out};
use orc_json_rows::JsonFault;
use orc_rle::{Rle, RunCodec, RunFault, Sign, V1, V2};
use orc_tail::FileFault;
use std::alloc::{AllocError, Global};
use std::io::Write;

/// Returns the line of the numbers, with one space between two.
fn line_of(alloc: Global, values: &[i64]) -> Result<String, AllocError>
    ensures { IfOk result (λ line. string_bytes line ≡ number_line values.now) }
{
    let mut line = String::new(alloc);
    for (i, value) in values.iter().enumerate() {
        if i > 0 {
            line.push_str(" ")?;
        }
        write!(line, "{value}")?;
    }
    line.push_str("\n")?;
    Ok(line)
}

/// Decodes all runs of a stream, of either version.
fn decode_all(alloc: Global, rle: Rle, sign: Sign, bytes: &[u8]) -> Result<Vec<i64>, RunFault>
    ensures found { IfOk result (λ decoded. IsIntegerStream rle sign bytes.now decoded.items) }
    ensures only { (values : List ℤ) → IsIntegerStream rle sign bytes.now values
        → MatchResult result (λ decoded. decoded.items ≡ values) (λ fault. fault ≡ RunOutOfMemory) }
    ensures fault { IfErr result (λ fault. (fault ≡ RunOutOfMemory) ⊎ StopsIntegers rle sign bytes.now fault) }
    ensures refused { (fault : RunFault) → StopsIntegers rle sign bytes.now fault → Refuses result fault }
{
    match rle {
        Rle::One => V1::decode_all(alloc, bytes, sign),
        Rle::Two => V2::decode_all(alloc, bytes, sign),
    }
}

/// Decodes the runs whose bytes hexadecimal digits spell. The digits may be of either case.
fn values_of(alloc: Global, rle: Rle, sign: Sign, text: &str) -> Result<Vec<i64>, CliFault>
    ensures found { IfOk result (λ found. DigitsSpellInts rle sign text.now found.items) }
    ensures only { (values : List ℤ) → DigitsSpellInts rle sign text.now values → IfErr result IsWantOfMemory }
    ensures same { (values : List ℤ) → DigitsSpellInts rle sign text.now values
        → IfOk result (λ found. found.items ≡ values) }
    ensures refused { IfErr result (RefusesDigits rle sign text.now) }
    ensures no_hex { IsNoHex text.now → IsErrAnd result (λ e. (e ≡ Json json.BadHex) ⊎ IsWantOfMemory e) }
    ensures stops { (fault : RunFault) → StopsInts rle sign text.now fault
        → IsErrAnd result (λ e. (e ≡ Run fault) ⊎ IsWantOfMemory e) }
{
    let bytes = match hex::decode(alloc, text) {
        Ok(bytes) => bytes,
        Err(FromHexError::OutOfMemory) => return Err(CliFault::File(FileFault::OutOfMemory)),
        Err(_) => return Err(CliFault::Json(JsonFault::BadHex)),
    };
    match decode_all(alloc, rle, sign, &bytes) {
        Ok(values) => Ok(values),
        Err(fault) => Err(CliFault::Run(fault)),
    }
}

/// Prints the numbers of the integer stream whose bytes the hexadecimal digits in `text` spell, on one line. Nothing
/// is printed before all numbers are decoded.
///
/// # Errors
///
/// - `Json` with `BadHex` if `text` isn't hexadecimal.
/// - `Run` with the fault of the first invalid run.
/// - `OutOfMemory` if memory ran out: of `Run` in the decoder, of `File` otherwise.
/// - `File` with `WriteFailed` if the output failed. Then a proper prefix of the line was printed, and nothing after
///   any other error.
pub fn ints_to<W: Write>(
    alloc: Global,
    rle: Rle,
    sign: Sign,
    text: &str,
    out: &mut W,
) -> Result<(), CliFault>
    // If the call succeeds, then the digits in `text` spell a stream of numbers, and the output has got exactly
    // the line of these numbers if the output's bytes are known.
    ensures written { OnOk result ((values : List ℤ) × DigitsSpellInts rle sign text.now values
        × Appends (W.contents out.old) (W.contents out.new) (number_line values)) }
    // If the digits in `text` spell a stream of numbers, then an error is `WriteFailed` or `OutOfMemory`.
    ensures only { (values : List ℤ) → DigitsSpellInts rle sign text.now values → IfErr result IsOutputOrMemory }

    // An error is `BadHex`, only if `text` is not hexadecimal; `Run` with the fault of the first invalid run of
    // the bytes that `text` spells; `WriteFailed`, only if the digits in `text` spell a stream of numbers; or
    // `OutOfMemory`.
    ensures refused { IfErr result (RefusesInts rle sign text.now) }
    // If `text` is not hexadecimal, then the call fails with `BadHex` or `OutOfMemory`.
    ensures no_hex { IsNoHex text.now → IsErrAnd result (λ e. (e ≡ Json json.BadHex) ⊎ IsWantOfMemory e) }
    // If `text` is hexadecimal and its bytes have an invalid run, then the call fails with `Run` and the fault of the
    // first invalid run, or with `OutOfMemory`.
    ensures stops { (fault : RunFault) → StopsInts rle sign text.now fault
        → IsErrAnd result (λ e. (e ≡ Run fault) ⊎ IsWantOfMemory e) }
    // If the error is `WriteFailed`, the output's bytes are known, and the digits in `text` spell a stream of
    // numbers, then the output has got a proper prefix of the line of these numbers.
    ensures part { (values : List ℤ) → DigitsSpellInts rle sign text.now values → result ≡ Err write_failed
        → AppendsPart (W.contents out.old) (W.contents out.new) (number_line values) }
    // If the call fails with any error but `WriteFailed`, then the output's bytes are unchanged if they are
    // known.
    ensures nothing { IfErr result (λ fault. fault ≢ write_failed
        → Keeps (W.contents out.old) (W.contents out.new)) }
    // If the error is `OutOfMemory`, then it is that of `Run` or that of `File`.
    ensures layer { IfErr result (λ fault. IsWantOfMemory fault → IsWantOfInts fault) }
{
    let values = values_of(alloc, rle, sign, text)?;
    let line = line_of(alloc, &values)?;
    write_out(out, line.as_bytes())
}
