//! Reads the words of a command line.
ghost use Rattle.std.specs.Prelude.{◌≡◌, ◌⊎◌, IfOk, IfErr, map, string_bytes};
ghost use Rattle.clap.specs.Values.{kind_of};
ghost use Rattle.clap.specs.declared.error.kind.ErrorKind.TheVariants as kind;
ghost use Rattle.orc_tail.specs.declared.fault.FileFault.TheVariants as file;
ghost use Rattle.orc_cli_output.specs.declared.fault.CliFault.TheVariants.{File};
ghost use Rattle.orc_cli_args.specs.Commands.{IsFound, WordsFail, IsAskedIn, IsNotAskedIn};
ghost use Rattle.orc_cli_args.specs.declared.command_line.Refusal.TheVariants.{Fault, NotUnderstood};

use clap::error::ErrorKind;
use clap::{ArgMatches, Error};
use orc_cli_output::CliFault;
use orc_cli_parser::{MOST_STRIDE, orcm};
use orc_tail::FileFault;
use orc_values::MOST_STRIPE_ROWS;
use std::alloc::Global;
use std::convert::AsStr;
use std::rt::Env;
use std::{env, io};

/// What the words of a command line ask for.
pub enum Asked<'a> {
    /// A request, as the parser found it in the words.
    Request(ArgMatches<'a>),
    /// A text, help or the version, which is on standard output already.
    Text,
}

/// Why a command line isn't carried out.
#[derive(Clone, Copy, Debug, PartialEq, Eq)]
pub enum Refusal {
    /// The request failed, or memory ran out before the words were read.
    Fault(CliFault),
    /// The words aren't a request. Standard error says why already.
    NotUnderstood,
}

impl From<CliFault> for Refusal {
    ghost use Rattle.std.specs.Prelude.{◌≡◌};
    ghost use Rattle.orc_cli_args.specs.declared.command_line.Refusal.TheVariants.{Fault};

    ghost from_gives = { λ fault refusal. refusal ≡ Fault fault };

    fn from(fault: CliFault) -> Refusal {
        Refusal::Fault(fault)
    }
}

/// Returns the words that the program was started with. The first is its name.
///
/// # Errors
///
/// `NotUnderstood` if a word isn't UTF-8, which standard error says already; or `OutOfMemory`.
pub fn words_of<R: Env + AllocGlobal + Eprint>(rt: &R) -> Result<Vec<String>, Refusal>
    // An error is `NotUnderstood` or `OutOfMemory`.
    ensures { IfErr result (λ refusal. (refusal ≡ NotUnderstood) ⊎ (refusal ≡ Fault (File file.OutOfMemory))) }
{
    let words = match env::args(rt) {
        Ok(words) => words,
        Err(error) if error.kind() == io::ErrorKind::OutOfMemory => {
            return Err(Refusal::Fault(CliFault::File(FileFault::OutOfMemory)));
        }
        Err(_) => {
            let _ = eprintln!(rt; "error: a word of the command line isn't UTF-8");
            return Err(Refusal::NotUnderstood);
        }
    };
    match words.collect(rt.alloc()) {
        Ok(words) => Ok(words),
        Err(_) => Err(Refusal::Fault(CliFault::File(FileFault::OutOfMemory))),
    }
}

/// Returns what the words ask for. If they ask for help or the version, then this text is printed to standard output.
/// If they have a fault, then it is explained on standard error.
///
/// # Errors
///
/// `NotUnderstood` if the words have a fault, `WriteFailed` if a text that they ask for could not be printed, and
/// `OutOfMemory` if memory ran out.
pub fn read_words<'a, R: AllocGlobal + Print + Eprint>(
    rt: &R,
    words: &'a [String],
) -> Result<Asked<'a>, Refusal>
    // If the call succeeds, then the words have no fault and the request has what the parser finds in them, or the
    // words ask for help or the version.
    ensures asked { IfOk result (IsAskedIn (map (λ word. string_bytes word) words.entry.now)) }
    // An error is `NotUnderstood`, only if the words have a fault that isn't a request for help or the version;
    // `OutOfMemory`; or `WriteFailed`, only if the words ask for help or the version.
    ensures refused { IfErr result (IsNotAskedIn (map (λ word. string_bytes word) words.entry.now)) }
{
    let error = match matches_of(rt.alloc(), words) {
        Ok(matches) => return Ok(Asked::Request(matches)),
        Err(error) => error,
    };
    match error.kind() {
        ErrorKind::OutOfMemory => Err(Refusal::Fault(CliFault::File(FileFault::OutOfMemory))),
        ErrorKind::DisplayHelp | ErrorKind::DisplayVersion => match error.print(rt) {
            Ok(()) => Ok(Asked::Text),
            Err(_) => Err(Refusal::Fault(CliFault::File(FileFault::WriteFailed))),
        },
        _ => {
            say_why(rt, words, &error);
            Err(Refusal::NotUnderstood)
        }
    }
}

/// Prints to standard error why the words aren't understood.
fn say_why<R: Print + Eprint>(rt: &R, words: &[String], error: &Error) {
    // the parser takes `-1` for an unknown option, and its advice doesn't help if `-1` was meant as a number
    let negative = match error.kind() {
        ErrorKind::UnknownArgument => negative_number(words),
        _ => None,
    };
    match negative {
        Some(
            NegativeNumber {
                option,
                number,
                least,
                most,
            },
        ) => {
            let _ = eprintln!(rt;
                "error: invalid value '{number}' for '{option} <N>': {number} is not in {least}..={most}\n\nFor more information, try '--help'."
            );
        }
        None => {
            let _ = error.print(rt);
        }
    }
}

/// A negative number in place of an option's number, and the range of numbers that the option takes.
#[derive(Clone, Copy)]
struct NegativeNumber<'w> {
    option: &'w str,
    number: &'w str,
    least: u64,
    most: u64,
}

/// Returns the first negative number among the words of `write`, if the word before it is an option that takes
/// numbers.
fn negative_number(words: &[String]) -> Option<NegativeNumber<'_>> {
    if words.get(1)?.as_str() != "write" {
        return None;
    }
    let at = words.iter().position(|word| is_negative(word.as_str()))?;
    let option = words.get(at.checked_sub(1)?)?.as_str();
    let (least, most) = match option {
        "--stride" => (0, MOST_STRIDE),
        "--stripe-rows" => (1, MOST_STRIPE_ROWS),
        _ => return None,
    };
    Some(NegativeNumber {
        option,
        number: words.get(at)?.as_str(),
        least,
        most,
    })
}

/// Returns whether the word is a minus followed by digits.
fn is_negative(word: &str) -> bool {
    match word.strip_prefix('-') {
        Some(digits) => !digits.is_empty() && digits.bytes().all(|byte| byte.is_ascii_digit()),
        None => false,
    }
}

/// Returns what the parser finds in the words.
///
/// The parser's table has the six commands, the arguments of each and whether they must be given, the words that
/// `--rle` and `--sign` take, and the ranges of the numbers of `--stride` and `--stripe-rows`. `merge` takes any
/// number of inputs.
///
/// # Errors
///
/// A fault of the words by the parser's table, or want of memory.
pub fn matches_of<'a, S: AsStr>(alloc: Global, words: &'a [S]) -> Result<ArgMatches<'a>, Error>
    // If the call succeeds, then the words have no fault by the parser's table, and what is returned has the
    // arguments of the program and of the command, with their values in order, that this table gives.
    ensures found { IfOk result (IsFound (map S.text words.entry.now)) }
    // An error is want of memory, or of the kind of a fault that the words have by the parser's table.
    ensures refused { IfErr result (λ error. (kind_of error ≡ kind.OutOfMemory)
        ⊎ WordsFail (map S.text words.entry.now) (kind_of error)) }
{
    orcm(alloc)?.try_get_matches_from(words)
}
