//! The parser's table: the commands of the program, their arguments, and the help of each.
ghost use Rattle.std.specs.Prelude.{◌≡◌, Ok, IfOk, IfErr, false, codes};
ghost use Rattle.clap.specs.Values.{kind_of};
ghost use Rattle.clap.specs.Walk.{rule_of};
ghost use Rattle.clap.specs.Simple.{app_of, shape_of, with_subcommand};
ghost use Rattle.clap.specs.declared.builder.command.Command.{Command};
ghost use Rattle.clap.specs.declared.builder.command.Command.TheViews.{out-Command};
ghost use Rattle.clap.specs.declared.error.kind.ErrorKind.TheVariants as kind;
ghost use Rattle.orc_cli_parser.specs.Commands as spec;
ghost use Rattle.orc_cli_parser.specs.Commands.{Choices, Words, needed, optional, named, one_of, between, all_of, progress_rule};
ghost use Rattle.orc_cli_parser.specs.Commands.{HasVersions, HasSigns};

use crate::help::{
    CHECK_HELP, INTS_HELP, MERGE_HELP, PROGRAM_HELP, PROGRESS, ROWS_HELP, SHOW_HELP, WRITE_HELP,
};
use clap::builder::ValueParser;
use clap::{Arg, ArgAction, Command, Error};
use orc_values::MOST_STRIPE_ROWS;
use std::alloc::Global;

/// The version of the program.
const VERSION: &str = "0.4.0";

/// The words that `--rle` takes.
pub static VERSIONS: [&str; 2] = ["1", "2"];

/// The words that `--sign` takes.
pub static SIGNS: [&str; 2] = ["s", "u"];

/// The greatest number of rows in a group of the row index.
pub const MOST_STRIDE: u64 = 4_294_967_295;

/// Makes the parser of the program's command line, which must name one of its commands.
///
/// # Errors
///
/// Fails only for want of memory.
pub fn orcm<'a>(alloc: Global) -> Result<Command<'a>, Error>
    // If the call succeeds, then the returned command has the program's table, with the words that `--rle` and
    // `--sign` take.
    ensures table { IfOk result (λ command. (choices : Choices) × (app_of command ≡ spec.orcm choices)) }
    // An error is want of memory.
    ensures memory { IfErr result (λ error. kind_of error ≡ kind.OutOfMemory) }
{
    let program = Command::new(alloc, "orcm")
        .bin_name("orcm")?
        .version(VERSION)
        .about("Reads, writes, checks and joins uncompressed Apache ORC files")
        .after_help(PROGRAM_HELP)
        .subcommand_required(true);
    let program = with_command(program, ints_command(alloc))?;
    let program = with_command(program, rows_command(alloc))?;
    let program = with_command(program, show_command(alloc))?;
    let program = with_command(program, check_command(alloc))?;
    let program = with_command(program, write_command(alloc))?;
    with_command(program, merge_command(alloc))
}

/// Adds a command to the program, if there was memory to make the command.
fn with_command<'a>(
    program: Command<'a>,
    command: Result<Command<'a>, Error>,
) -> Result<Command<'a>, Error>
    ensures added { IfOk result (λ more. (line : Command) × (command.entry ≡ Ok line)
        × ((out-Command line).has_globals ≡ false
        → app_of more ≡ with_subcommand (app_of program.entry) (shape_of line))) }
    ensures memory { IfErr command.entry (λ error. kind_of error ≡ kind.OutOfMemory)
        → IfErr result (λ error. kind_of error ≡ kind.OutOfMemory) }
{
    Ok(program.subcommand(command?)?)
}

/// Makes an argument that must be given.
fn needed_argument<'a>(
    alloc: Global,
    name: &'static str,
    value_name: &'static str,
    help: &'static str,
) -> Arg<'a>
    ensures rule { rule_of result ≡ needed name.entry.now }
    ensures local { result.global ≡ false }
{
    Arg::new(alloc, name)
        .required(true)
        .action(ArgAction::Set)
        .value_name(value_name)
        .help(help)
}

/// Makes an option that must be given and takes one of these words.
fn word_option<'a>(
    alloc: Global,
    name: &'static str,
    value_name: &'static str,
    help: &'static str,
    words: &'a [&'a str],
) -> Arg<'a>
    ensures rule { rule_of result ≡ one_of words.entry (named (needed name.entry.now)) }
    ensures local { result.global ≡ false }
{
    needed_argument(alloc, name, value_name, help)
        .long(name)
        .value_parser(words)
}

/// Makes an option that must be given and takes a number from `least` to `most`.
fn number_option<'a>(
    alloc: Global,
    name: &'static str,
    help: &'static str,
    least: u64,
    most: u64,
) -> Arg<'a>
    ensures rule { rule_of result ≡ between least most (named (needed name.entry.now)) }
    ensures local { result.global ≡ false }
{
    needed_argument(alloc, name, "N", help)
        .long(name)
        .value_parser(ValueParser::unsigned(least, most))
}

/// Makes the option for the version of the integer run lengths.
fn version_option<'a>(alloc: Global) -> Arg<'a>
    ensures rule { (words : Words) × HasVersions words
        × (rule_of result ≡ one_of words (named (needed (codes "rle")))) }
    ensures local { result.global ≡ false }
{
    word_option(
        alloc,
        "rle",
        "VERSION",
        "Version of the integer run lengths",
        VERSIONS.as_slice(),
    )
}

/// Makes the option for signed or unsigned numbers.
fn sign_option<'a>(alloc: Global) -> Arg<'a>
    ensures rule { (words : Words) × HasSigns words
        × (rule_of result ≡ one_of words (named (needed (codes "sign")))) }
    ensures local { result.global ≡ false }
{
    word_option(
        alloc,
        "sign",
        "SIGN",
        "Signed (s) or unsigned (u) numbers",
        SIGNS.as_slice(),
    )
}

fn ints_command<'a>(alloc: Global) -> Result<Command<'a>, Error>
    ensures shape { IfOk result (λ command. (versions signs : Words) × HasVersions versions × HasSigns signs
        × (shape_of command ≡ spec.ints_line versions signs)) }
    ensures local { IfOk result (λ command. (out-Command command).has_globals ≡ false) }
    ensures memory { IfErr result (λ error. kind_of error ≡ kind.OutOfMemory) }
{
    Ok(
        Command::new(alloc, "ints")
            .about("Decodes an integer stream given as hexadecimal digits")
            .after_help(INTS_HELP)
            .arg(version_option(alloc))?
            .arg(sign_option(alloc))?
            .arg(needed_argument(
                alloc,
                "hex",
                "HEX",
                "Bytes of the stream as hexadecimal digits, in upper or lower case",
            ))?,
    )
}

/// Makes the flag that shows progress.
fn progress_flag<'a>(alloc: Global) -> Arg<'a>
    ensures rule { rule_of result ≡ progress_rule }
    ensures local { result.global ≡ false }
{
    Arg::new(alloc, "progress")
        .long("progress")
        .action(ArgAction::SetTrue)
        .help(PROGRESS)
}

/// Makes the argument for the ORC file that a command reads.
fn file_word<'a>(alloc: Global) -> Arg<'a>
    ensures rule { rule_of result ≡ needed (codes "file") }
    ensures local { result.global ≡ false }
{
    needed_argument(alloc, "file", "FILE", "Input file (ORC)")
}

/// Makes the option for the stripe and row group to start at.
fn from_option<'a>(alloc: Global) -> Arg<'a>
    ensures rule { rule_of result ≡ named (optional (codes "from")) }
    ensures local { result.global ≡ false }
{
    Arg::new(alloc, "from")
        .long("from")
        .action(ArgAction::Set)
        .value_name("STRIPE:GROUP")
        .help("Stripe and row group to start at, both counted from 0")
}

fn rows_command<'a>(alloc: Global) -> Result<Command<'a>, Error>
    ensures shape { IfOk result (λ command. shape_of command ≡ spec.rows_line) }
    ensures local { IfOk result (λ command. (out-Command command).has_globals ≡ false) }
    ensures memory { IfErr result (λ error. kind_of error ≡ kind.OutOfMemory) }
{
    Ok(
        Command::new(alloc, "rows")
            .about("Prints the rows as compact JSON, one per line")
            .after_help(ROWS_HELP)
            .arg(from_option(alloc))?
            .arg(progress_flag(alloc))?
            .arg(file_word(alloc))?,
    )
}

fn show_command<'a>(alloc: Global) -> Result<Command<'a>, Error>
    ensures shape { IfOk result (λ command. shape_of command ≡ spec.show_line) }
    ensures local { IfOk result (λ command. (out-Command command).has_globals ≡ false) }
    ensures memory { IfErr result (λ error. kind_of error ≡ kind.OutOfMemory) }
{
    Ok(
        Command::new(alloc, "show")
            .about("Prints the schema, stripes and statistics of a file")
            .after_help(SHOW_HELP)
            .arg(file_word(alloc))?,
    )
}

fn check_command<'a>(alloc: Global) -> Result<Command<'a>, Error>
    ensures shape { IfOk result (λ command. shape_of command ≡ spec.check_line) }
    ensures local { IfOk result (λ command. (out-Command command).has_globals ≡ false) }
    ensures memory { IfErr result (λ error. kind_of error ≡ kind.OutOfMemory) }
{
    Ok(
        Command::new(alloc, "check")
            .about("Checks stored statistics and row indexes against the rows")
            .after_help(CHECK_HELP)
            .arg(progress_flag(alloc))?
            .arg(file_word(alloc))?,
    )
}

/// Makes the option for the schema of the rows.
fn schema_option<'a>(alloc: Global) -> Arg<'a>
    ensures rule { rule_of result ≡ named (needed (codes "schema")) }
    ensures local { result.global ≡ false }
{
    needed_argument(
        alloc,
        "schema",
        "TEXT",
        "Schema of the rows, such as 'struct<n:bigint>'",
    )
    .long("schema")
}

/// Makes the option for the number of rows per row index entry.
fn stride_option<'a>(alloc: Global) -> Arg<'a>
    ensures rule { rule_of result ≡ between 0 4294967295 (named (needed (codes "stride"))) }
    ensures local { result.global ≡ false }
{
    number_option(
        alloc,
        "stride",
        "Rows per row-index entry, 0 to 4294967295; 0 writes no index",
        0,
        MOST_STRIDE,
    )
}

/// Makes the option for the number of rows per stripe.
fn stripe_rows_option<'a>(alloc: Global) -> Arg<'a>
    ensures rule { rule_of result ≡ between 1 2147483647 (named (needed (codes "stripe-rows"))) }
    ensures local { result.global ≡ false }
{
    number_option(
        alloc,
        "stripe-rows",
        "Rows per stripe, 1 to 2147483647",
        1,
        MOST_STRIPE_ROWS,
    )
}

fn write_command<'a>(alloc: Global) -> Result<Command<'a>, Error>
    ensures shape { IfOk result (λ command. (versions : Words) × HasVersions versions
        × (shape_of command ≡ spec.write_line versions)) }
    ensures local { IfOk result (λ command. (out-Command command).has_globals ≡ false) }
    ensures memory { IfErr result (λ error. kind_of error ≡ kind.OutOfMemory) }
{
    Ok(
        Command::new(alloc, "write")
            .about("Writes an ORC file from JSON, one row per line")
            .after_help(WRITE_HELP)
            .arg(schema_option(alloc))?
            .arg(version_option(alloc))?
            .arg(stride_option(alloc))?
            .arg(stripe_rows_option(alloc))?
            .arg(progress_flag(alloc))?
            .arg(needed_argument(alloc, "in", "IN", "Input file (JSON lines)"))?
            .arg(needed_argument(alloc, "out", "OUT", "Output file, must not exist"))?,
    )
}

/// Makes the argument for the files that are joined.
fn inputs_word<'a>(alloc: Global) -> Arg<'a>
    ensures rule { rule_of result ≡ all_of (codes "in") }
    ensures local { result.global ≡ false }
{
    Arg::new(alloc, "in")
        .action(ArgAction::Append)
        .num_args(0..)
        .value_name("IN")
        .help("Input files (ORC), joined in this order")
}

fn merge_command<'a>(alloc: Global) -> Result<Command<'a>, Error>
    ensures shape { IfOk result (λ command. shape_of command ≡ spec.merge_line) }
    ensures local { IfOk result (λ command. (out-Command command).has_globals ≡ false) }
    ensures memory { IfErr result (λ error. kind_of error ≡ kind.OutOfMemory) }
{
    Ok(
        Command::new(alloc, "merge")
            .about("Joins files into one by copying stripes and merging statistics")
            .after_help(MERGE_HELP)
            .arg(progress_flag(alloc))?
            .arg(needed_argument(alloc, "out", "OUT", "Output file, must not exist"))?
            .arg(inputs_word(alloc))?,
    )
}
