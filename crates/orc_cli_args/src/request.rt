//! The requests of a command line, and what the words of its options stand for.
ghost use Rattle.std.specs.Prelude.{◌≡◌, ◌<◌, ◌^◌, ◌↔◌, ℕ, List, Some, IsSome, IsTrue, IfSome, IfNone, option_map, codes};
ghost use Rattle.clap.specs.Matches.{found_of, first_value, subcommand_name_of};
ghost use Rattle.clap.specs.Walk.{rows_of as found_rows};
ghost use Rattle.clap.specs.Simple.{subcommand_rows_of};
ghost use Rattle.clap.specs.declared.parser.matches.Found.{Found};
ghost use Rattle.clap.specs.declared.parser.matches.ValueSource.TheVariants.{CommandLine};
ghost use Rattle.orc_rle.specs.declared.sign.Rle.{Rle};
ghost use Rattle.orc_rle.specs.declared.sign.Sign.{Sign};
ghost use Rattle.orc_row_batch.specs.declared.options.Options.{Options};
ghost use Rattle.orc_cli_args.specs.Requests.{Asks, command_word, HasInts, HasWrite, IsNotUnderstood};
ghost use Rattle.orc_cli_parser.specs.OptionWords.{version_word, sign_word};
ghost use Rattle.orc_cli_args.specs.Requests.{origin_of, HasProgress, TakesNumber, IsNoNumber, IsUnread};

use clap::ArgMatches;
use clap::parser::ValueSource;
use orc_cli_output::number_of;
use orc_rle::{Rle, Sign};
use orc_row_batch::Options;

/// A request of a command line. Its words have the lifetime `'a`, and lists of words are part of what the parser
/// found.
#[derive(Clone, Copy, Debug, PartialEq, Eq)]
pub enum Request<'m, 'a> {
    /// Print the numbers of an integer stream, whose bytes are given in hexadecimal digits.
    Ints {
        rle: Rle,
        sign: Sign,
        hex: &'a str,
    },
    /// Print the rows of a file, from the stripe and group on that a text names, if there is one.
    Rows {
        file: &'a str,
        from: Option<&'a str>,
    },
    /// Print the tail of a file.
    Show {
        file: &'a str,
    },
    /// Check the statistics and row indexes of a file.
    Check {
        file: &'a str,
    },
    /// Write a file from lines of JSON.
    Write {
        schema: &'a str,
        options: Options,
        input: &'a str,
        output: &'a str,
    },
    /// Join the inputs, in this order, into a file.
    Merge {
        output: &'a str,
        inputs: &'m [&'a str],
    },
}

/// Returns the version of the integer run lengths that a word of `--rle` stands for.
fn version_of(word: &str) -> Option<Rle>
    ensures found { IfSome result (λ rle. word.now ≡ version_word rle) }
    ensures only { (rle : Rle) → word.now ≡ version_word rle → result ≡ Some rle }
{
    match word {
        "1" => Some(Rle::One),
        "2" => Some(Rle::Two),
        _ => None,
    }
}

/// Returns the sign that a word of `--sign` stands for.
fn sign_of(word: &str) -> Option<Sign>
    ensures found { IfSome result (λ sign. word.now ≡ sign_word sign) }
    ensures only { (sign : Sign) → word.now ≡ sign_word sign → result ≡ Some sign }
{
    match word {
        "s" => Some(Sign::Signed),
        "u" => Some(Sign::Unsigned),
        _ => None,
    }
}

/// Returns the request of the words of `ints`.
fn ints_of<'m, 'a>(found: &'m ArgMatches<'a>) -> Option<Request<'m, 'a>>
    ensures name { IfSome result (λ request. command_word request ≡ codes "ints") }
    ensures found { IfSome result (Asks (found_of found.now)) }
    ensures only { (rle : Rle) (sign : Sign) (hex : List ℕ)
        → HasInts (found_of found.now) rle sign hex → IsSome result }
{
    Some(Request::Ints {
        rle: version_of(found.get_str("rle")?)?,
        sign: sign_of(found.get_str("sign")?)?,
        hex: found.get_str("hex")?,
    })
}

/// Returns the request of the words of `rows`.
fn rows_of<'m, 'a>(found: &'m ArgMatches<'a>) -> Option<Request<'m, 'a>>
    ensures name { IfSome result (λ request. command_word request ≡ codes "rows") }
    ensures found { IfSome result (Asks (found_of found.now)) }
    ensures only { (file : List ℕ) → first_value (found_of found.now) (codes "file") ≡ Some file → IsSome result }
{
    Some(Request::Rows {
        file: found.get_str("file")?,
        from: found.get_str("from"),
    })
}

/// Returns the request of the words of `show`.
fn show_of<'m, 'a>(found: &'m ArgMatches<'a>) -> Option<Request<'m, 'a>>
    ensures name { IfSome result (λ request. command_word request ≡ codes "show") }
    ensures found { IfSome result (Asks (found_of found.now)) }
    ensures only { (file : List ℕ) → first_value (found_of found.now) (codes "file") ≡ Some file → IsSome result }
{
    let file = found.get_str("file")?;
    Some(Request::Show { file })
}

/// Returns the request of the words of `check`.
fn check_of<'m, 'a>(found: &'m ArgMatches<'a>) -> Option<Request<'m, 'a>>
    ensures name { IfSome result (λ request. command_word request ≡ codes "check") }
    ensures found { IfSome result (Asks (found_of found.now)) }
    ensures only { (file : List ℕ) → first_value (found_of found.now) (codes "file") ≡ Some file → IsSome result }
{
    let file = found.get_str("file")?;
    Some(Request::Check { file })
}

/// Returns the request of the words of `write`, or `None` if a number isn't written in decimal digits alone, or is
/// out of range.
fn write_of<'m, 'a>(found: &'m ArgMatches<'a>) -> Option<Request<'m, 'a>>
    ensures name { IfSome result (λ request. command_word request ≡ codes "write") }
    ensures found { IfSome result (Asks (found_of found.now)) }
    ensures only { (schema : List ℕ) (options : Options) (input output : List ℕ)
        → HasWrite (found_of found.now) schema options input output → IsSome result }
{
    let rle = version_of(found.get_str("rle")?)?;
    let stride = number_of(found.get_str("stride")?)?;
    let stripe_rows = number_of(found.get_str("stripe-rows")?)?;
    Some(Request::Write {
        schema: found.get_str("schema")?,
        options: Options::new(rle, stride, stripe_rows)?,
        input: found.get_str("in")?,
        output: found.get_str("out")?,
    })
}

/// Returns the request of the words of `merge`. There may be no inputs.
fn merge_of<'m, 'a>(found: &'m ArgMatches<'a>) -> Option<Request<'m, 'a>>
    ensures name { IfSome result (λ request. command_word request ≡ codes "merge") }
    ensures found { IfSome result (Asks (found_of found.now)) }
    ensures only { (output : List ℕ) → first_value (found_of found.now) (codes "out") ≡ Some output → IsSome result }
{
    let output = found.get_str("out")?;
    let inputs = found.get_strs("in").unwrap_or_default();
    Some(Request::Merge { output, inputs })
}

/// Returns the request of the words, if they have all that their command needs. A number of `write` must be decimal
/// digits alone, with or without leading zeros and without a sign, and must be in range.
pub fn request_of<'m, 'a>(matches: &'m ArgMatches<'a>) -> Option<Request<'m, 'a>>
    // If a request is returned, then it is one of the command that the words name.
    ensures name { IfSome result (λ request. subcommand_name_of matches.now ≡ Some (command_word request)) }
    // If a request is returned, then each of its values is what the words of its option or argument, as the parser
    // found them after the command's name, stand for.
    ensures found { IfSome result (λ request. (found : Found)
        × (option_map (λ p. p.1) (subcommand_rows_of matches.now) ≡ Some (found_rows found)) × Asks found request) }
    // `None` is returned only if the words name no command of the program, or lack what this command needs, or have a
    // word that stands for no version, sign or number that its option takes.
    ensures none { IfNone result (IsNotUnderstood matches.now) }
{
    let (name, found) = matches.subcommand()?;
    match name {
        "ints" => ints_of(found),
        "rows" => rows_of(found),
        "show" => show_of(found),
        "check" => check_of(found),
        "write" => write_of(found),
        "merge" => merge_of(found),
        _ => None,
    }
}

/// Returns whether the option has a value that isn't a number in decimal digits alone.
fn is_unread(found: &ArgMatches<'_>, option: &str) -> bool
    ensures { IsTrue result ↔ IsNoNumber (first_value (found_of found.now) option.now) }
{
    match found.get_str(option) {
        Some(word) => number_of(word).is_none(),
        None => false,
    }
}

/// Returns the option of `write` whose value isn't a number in decimal digits alone: `stride` if its value isn't one,
/// otherwise `stripe-rows` if its value isn't one. In these cases `request_of` returns `None`.
pub fn unread_number(matches: &ArgMatches<'_>) -> Option<&'static str>
    // If an option is returned, then it takes a number, and its value isn't one: decimal digits alone, leading zeros
    // allowed, that spell a number below 2^32.
    ensures found { IfSome result (λ option. TakesNumber option.now × IsUnread matches.now option.now) }
    // If the value of an option that takes a number isn't one, then an option is returned.
    ensures only { (option : List ℕ) → TakesNumber option → IsUnread matches.now option → IsSome result }
    // If the value of `--stride` isn't a number, then `stride` is returned.
    ensures first { IsUnread matches.now (codes "stride")
        → option_map (λ option. option.now) result ≡ Some (codes "stride") }
{
    let (_, found) = matches.subcommand()?;
    if is_unread(found, "stride") {
        Some("stride")
    } else if is_unread(found, "stripe-rows") {
        Some("stripe-rows")
    } else {
        None
    }
}

/// Returns whether the flag was given, rather than having only its default value.
fn is_given(found: &ArgMatches<'_>, flag: &str) -> bool
    ensures { IsTrue result ↔ (origin_of flag.now (found_rows (found_of found.now)) ≡ Some CommandLine) }
{
    match found.value_source(flag) {
        Some(ValueSource::CommandLine) => true,
        Some(ValueSource::DefaultValue) => false,
        None => false,
    }
}

/// Returns whether `--progress` was given after the command's name, and `false` if the command has no such flag.
pub fn wants_progress(matches: &ArgMatches<'_>) -> bool
    // `true` is returned if and only if `--progress` was given after the command's name.
    ensures given { IsTrue result ↔ HasProgress matches.now }
{
    match matches.subcommand() {
        Some((_, found)) => is_given(found, "progress"),
        None => false,
    }
}
