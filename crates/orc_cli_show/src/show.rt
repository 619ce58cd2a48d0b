//! `orcm show`: prints the tail of a file.
ghost use Rattle.std.specs.Prelude.{◌≡◌, ◌≢◌, ◌++◌, ◌⊎◌, IfOk, OnOk, IfErr, IfSome, string_bytes, decimal, codes};
ghost use Rattle.std.specs.List.{flat_map};
ghost use Rattle.std.specs.Fmt.{signed_decimal};
ghost use Rattle.std.specs.Io.KnownBytes.{Appends, Keeps};
ghost use Rattle.orc_json_rows.specs.Days.{date_text as date_day};
ghost use Rattle.orc_io.specs.Leaves.{HandsBackSource};
ghost use Rattle.orc_tail.specs.Tails.{IsTail};
ghost use Rattle.orc_tail.specs.declared.fault.FileFault.TheVariants.{SourceFailed};
ghost use Rattle.orc_tail.specs.declared.tail.Tail.{Tail};
ghost use Rattle.orc_cli_output.specs.Output.{AppendsPart, IsNotOpened, IsOutsideFile, IsWantOfMemory, write_failed};
ghost use Rattle.orc_cli_show.specs.Show as spec;
ghost use Rattle.orc_cli_output.specs.declared.fault.CliFault.TheVariants.{File};

use orc_cli_output::{CliFault, write_out};
use orc_file_reader::OrcFile;
use orc_io::Source;
use orc_json_rows::date_text;
use orc_stats::{Body, Stat};
use orc_tail::Tail;
use orc_wire::{Bytes, StripeInfo, UserMetadataItem};
use serde_json::Value as Json;
use std::alloc::{AllocError, Global};
use std::io::Write;

/// Returns a text as JSON writes it, or `hex:` and the hexadecimal digits of its bytes if they aren't UTF-8.
fn name_of(alloc: Global, bytes: &[u8]) -> Result<String, AllocError>
    ensures { IfOk result (λ text. string_bytes text ≡ spec.name_text bytes.now) }
{
    match str::from_utf8(bytes) {
        Ok(text) => Json::String(String::from_str(alloc, text)?).to_string(alloc),
        Err(_) => {
            let mut text = String::from_str(alloc, "hex:")?;
            text.push_str(&hex::encode(alloc, bytes)?)?;
            Ok(text)
        }
    }
}

/// Returns the numbers of a version, joined by dots, or `none` if there are none.
fn version_of(alloc: Global, version: &[u32]) -> Result<String, AllocError>
    ensures { IfOk result (λ text. string_bytes text ≡ spec.version_text version.now) }
{
    if version.is_empty() {
        return String::from_str(alloc, "none");
    }
    let mut text = String::new(alloc);
    for (i, number) in version.iter().enumerate() {
        if i > 0 {
            text.push_str(".")?;
        }
        write!(text, "{number}")?;
    }
    Ok(text)
}

/// Returns a number in decimal digits, or `none` if there is none.
fn number_or_none(alloc: Global, number: Option<u32>) -> Result<String, AllocError>
    ensures { IfOk result (λ text. string_bytes text ≡ spec.number_or_none number) }
{
    match number {
        Some(number) => format!(in alloc; "{number}"),
        None => String::from_str(alloc, "none"),
    }
}

/// Appends the name and the value of an integer, if it is known.
fn put_number(lines: &mut String, name: &str, part: Option<i64>) -> Result<(), AllocError>
    ensures { OnOk result (string_bytes lines.new ≡ string_bytes lines.old ++ spec.known_line name.now signed_decimal part) }
{
    match part {
        Some(number) => write!(lines, " {name} {number}"),
        None => Ok(()),
    }
}

/// Appends the name and the value of a count, if it is known.
fn put_count(lines: &mut String, name: &str, part: Option<u64>) -> Result<(), AllocError>
    ensures { OnOk result (string_bytes lines.new ≡ string_bytes lines.old ++ spec.known_line name.now decimal part) }
{
    match part {
        Some(count) => write!(lines, " {name} {count}"),
        None => Ok(()),
    }
}

/// Appends the name and the value of a date, if it is known.
fn put_date(
    alloc: Global,
    lines: &mut String,
    name: &str,
    part: Option<i32>,
) -> Result<(), AllocError>
    ensures { OnOk result (string_bytes lines.new ≡ string_bytes lines.old ++ spec.known_line name.now date_day part) }
{
    match part {
        Some(day) => write!(lines, " {name} {}", date_text(alloc, day)?),
        None => Ok(()),
    }
}

/// Appends the name and the value of a text, if it is known.
fn put_text(
    alloc: Global,
    lines: &mut String,
    name: &str,
    part: &Option<Bytes>,
) -> Result<(), AllocError>
    ensures { OnOk result
        (string_bytes lines.new ≡ string_bytes lines.old ++ spec.known_line name.now spec.name_text part.now) }
{
    match part {
        Some(bytes) => write!(lines, " {name} {}", name_of(alloc, bytes.as_slice())?),
        None => Ok(()),
    }
}

/// Appends the number of true values, if it is known.
fn put_trues(lines: &mut String, trues: Option<u64>) -> Result<(), AllocError>
    ensures { OnOk result (string_bytes lines.new ≡ string_bytes lines.old ++ spec.known_line (codes "true") decimal trues) }
{
    match trues {
        Some(trues) => write!(lines, " true {trues}"),
        None => Ok(()),
    }
}

/// Appends what is known of a column's values, by the kind of the column.
fn put_body(alloc: Global, lines: &mut String, body: &Body) -> Result<(), AllocError>
    ensures { OnOk result (string_bytes lines.new ≡ string_bytes lines.old ++ spec.body_text body.now) }
{
    match body {
        Body::Plain => Ok(()),
        Body::Ints {
            least,
            greatest,
            sum,
        } => {
            put_number(lines, "min", *least)?;
            put_number(lines, "max", *greatest)?;
            put_number(lines, "sum", *sum)
        }
        Body::Bools { trues } => put_trues(lines, *trues),
        Body::Dates { least, greatest } => {
            put_date(alloc, lines, "min", *least)?;
            put_date(alloc, lines, "max", *greatest)
        }
        Body::Texts {
            least,
            greatest,
            sum,
        } => {
            put_text(alloc, lines, "min", least)?;
            put_text(alloc, lines, "max", greatest)?;
            put_number(lines, "sum", *sum)
        }
        Body::Bins { sum } => put_number(lines, "sum", *sum),
        Body::Children {
            least,
            greatest,
            total,
        } => {
            put_count(lines, "min", *least)?;
            put_count(lines, "max", *greatest)?;
            put_count(lines, "sum", *total)
        }
    }
}

/// Returns a word that says whether a column has nulls.
fn nulls_word(nulls: Option<bool>) -> &'static str
    ensures { result.now ≡ spec.nulls_word nulls }
{
    match nulls {
        None => "unknown",
        Some(true) => "yes",
        Some(false) => "no",
    }
}

/// Appends the line of a column's statistic.
fn put_column(
    alloc: Global,
    lines: &mut String,
    number: usize,
    stat: &Stat,
) -> Result<(), AllocError>
    ensures { OnOk result (string_bytes lines.new ≡ string_bytes lines.old ++ spec.column_line number stat.now) }
{
    let nulls = nulls_word(stat.nulls);
    let count = stat.count;
    write!(lines, "column {number} count {count} nulls {nulls}")?;
    put_body(alloc, lines, &stat.body)?;
    lines.push_str("\n")
}

/// Appends the line of a stripe.
fn put_stripe(lines: &mut String, number: usize, stripe: StripeInfo) -> Result<(), AllocError>
    ensures { OnOk result (string_bytes lines.new ≡ string_bytes lines.old ++ spec.stripe_line number stripe) }
{
    let StripeInfo {
        offset,
        index_length: index,
        data_length: data,
        footer_length: footer,
        number_of_rows: rows,
    } = stripe;
    write!(
        lines,
        "stripe {number} offset {offset} index {index} data {data} footer {footer} rows {rows}\n"
    )
}

/// Appends the line of a pair of user metadata.
fn put_pair(alloc: Global, lines: &mut String, pair: &UserMetadataItem) -> Result<(), AllocError>
    ensures { OnOk result (string_bytes lines.new ≡ string_bytes lines.old ++ spec.pair_line pair.now) }
{
    let name = name_of(alloc, pair.name.as_slice())?;
    let value = hex::encode(alloc, pair.value.as_slice())?;
    write!(lines, "meta {name} {value}\n")
}

/// Appends the lines of the file as a whole.
fn put_head(alloc: Global, lines: &mut String, tail: &Tail) -> Result<(), CliFault>
    ensures found { OnOk result (string_bytes lines.new ≡ string_bytes lines.old ++ spec.head_lines tail.now) }
    ensures fault { IfErr result spec.IsWantOfShow }
{
    let schema = tail.schema.text(alloc)?;
    let version = version_of(alloc, tail.version.as_slice())?;
    write!(lines, "schema {schema}\nversion {version}\n")?;
    let writer = number_or_none(alloc, tail.writer)?;
    let writer_version = number_or_none(alloc, tail.writer_version)?;
    write!(lines, "writer {writer} {writer_version}\n")?;
    let rows = tail.rows;
    let stride = tail.stride;
    write!(lines, "rows {rows}\nstride {stride}\n")?;
    Ok(())
}

/// Appends the lines of user metadata.
fn put_pairs(
    alloc: Global,
    lines: &mut String,
    pairs: &[UserMetadataItem],
) -> Result<(), AllocError>
    ensures { OnOk result (string_bytes lines.new ≡ string_bytes lines.old ++ flat_map spec.pair_line pairs.now) }
{
    for pair in pairs {
        put_pair(alloc, lines, pair)?;
    }
    Ok(())
}

/// Appends the lines of stripes.
fn put_stripes(lines: &mut String, stripes: &[StripeInfo]) -> Result<(), AllocError>
    ensures { OnOk result
        (string_bytes lines.new ≡ string_bytes lines.old ++ spec.numbered spec.stripe_line 0 stripes.now) }
{
    for (number, stripe) in stripes.iter().enumerate() {
        put_stripe(lines, number, *stripe)?;
    }
    Ok(())
}

/// Appends the lines of columns' statistics.
fn put_columns(alloc: Global, lines: &mut String, stats: &[Stat]) -> Result<(), AllocError>
    ensures { OnOk result
        (string_bytes lines.new ≡ string_bytes lines.old ++ spec.numbered spec.column_line 0 stats.now) }
{
    for (number, stat) in stats.iter().enumerate() {
        put_column(alloc, lines, number, stat)?;
    }
    Ok(())
}

/// Returns the lines that show a tail.
fn lines_of(alloc: Global, tail: &Tail) -> Result<String, CliFault>
    ensures found { IfOk result (λ lines. string_bytes lines ≡ spec.show_lines tail.now) }
    ensures fault { IfErr result spec.IsWantOfShow }
{
    let mut lines = String::new(alloc);
    put_head(alloc, &mut lines, tail)?;
    put_pairs(alloc, &mut lines, tail.user.as_slice())?;
    put_stripes(&mut lines, tail.stripes.as_slice())?;
    put_columns(alloc, &mut lines, tail.file_stats.as_slice())?;
    Ok(lines)
}

/// Prints the lines that show a file's tail: its schema, version, writer, number of rows and stride; each pair of
/// user metadata, with its value in hexadecimal digits; the place of each stripe; and each column's file statistic,
/// if it has one. Nothing is printed before all lines are made. Returns the source.
///
/// # Errors
///
/// The source is returned beside the error.
///
/// - `File` with a fault of the tail if the file doesn't open.
/// - `File` with `SourceFailed` if the source failed.
/// - `OutOfMemory` if memory ran out: of `Types` for the schema's text, of `File` otherwise.
/// - `File` with `WriteFailed` if the output failed. Then a proper prefix of the lines was printed, and nothing after
///   any other error.
pub fn show_to<S: Source, W: Write>(
    alloc: Global,
    source: S,
    out: &mut W,
) -> Result<S, (CliFault, S)>
    // If the call succeeds and the source's bytes are known, then these bytes have a tail, and the output has
    // got exactly the lines that show this tail, in order, if the output's bytes are known.
    ensures written { OnOk result (IfSome (S.told source) (λ bytes. (tail : Tail) × IsTail bytes tail
        × Appends (W.contents out.old) (W.contents out.new) (spec.show_lines tail))) }
    // If the source's bytes are known and have a tail, then an error is `WriteFailed`, `SourceFailed` or
    // `OutOfMemory`.
    ensures only { IfSome (S.told source) (λ bytes. (tail : Tail) → IsTail bytes tail
        → IfErr result (λ e. IsOutsideFile e.0)) }

    // If the source's bytes are known, then an error is `WriteFailed`, `SourceFailed`, `OutOfMemory`, or the
    // fault of the first test of a tail that the bytes fail.
    ensures refused { IfErr result (λ e. IfSome (S.told source) (λ bytes. e.0 ≢ write_failed → IsNotOpened bytes e.0)) }
    // If the call fails with any error but `WriteFailed`, then the output's bytes are unchanged if they are
    // known.
    ensures nothing { IfErr result (λ e. e.0 ≢ write_failed → Keeps (W.contents out.old) (W.contents out.new)) }
    // If the error is `WriteFailed` and the source's bytes are known, then these bytes have a tail, and the
    // output has got a proper prefix of the lines that show this tail if the output's bytes are known.
    ensures part { IfErr result (λ e. e.0 ≡ write_failed → IfSome (S.told source)
        (λ bytes. (tail : Tail) × IsTail bytes tail
        × AppendsPart (W.contents out.old) (W.contents out.new) (spec.show_lines tail))) }
    // The source, which a success and an error return, has its former length, and the same is known of its
    // bytes. Its count of failures rises by one with `SourceFailed`, and stays the same after a success and after
    // any other error.
    ensures source { HandsBackSource S.told S.size S.failures (File SourceFailed) (λ back. back) source result }
    // If the error is `OutOfMemory`, then it is that of `Types` or that of `File`.
    ensures layer { IfErr result (λ e. IsWantOfMemory e.0 → spec.IsWantOfShow e.0) }
{
    match OrcFile::open(alloc, source) {
        Ok(file) => {
            let shown = show_tail(alloc, file.tail(), out);
            let (_, source) = file.into_parts();
            match shown {
                Ok(()) => Ok(source),
                Err(fault) => Err((fault, source)),
            }
        }
        Err((fault, source)) => Err((CliFault::File(fault), source)),
    }
}

/// Prints the lines that show a tail.
fn show_tail<W: Write>(alloc: Global, tail: &Tail, out: &mut W) -> Result<(), CliFault>
    ensures written { OnOk result (Appends (W.contents out.old) (W.contents out.new) (spec.show_lines tail.now)) }
    ensures refused { IfErr result (λ fault.
        ((fault ≡ write_failed) × AppendsPart (W.contents out.old) (W.contents out.new) (spec.show_lines tail.now))
        ⊎ (IsWantOfMemory fault × Keeps (W.contents out.old) (W.contents out.new))) }
    ensures layer { IfErr result (λ fault. IsWantOfMemory fault → spec.IsWantOfShow fault) }
{
    let lines = lines_of(alloc, tail)?;
    write_out(out, lines.as_bytes())
}
