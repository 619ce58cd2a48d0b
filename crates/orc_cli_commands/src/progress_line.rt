//! The line that shows progress.
ghost use Rattle.std.specs.Prelude.{◌≡◌, ◌/◌, ◌≤◌};
ghost use Rattle.orc_cli_commands.specs.Progress as spec;

use std::fmt;

/// The number of bytes that are done, and the number of all bytes, which is 0 if it is unknown.
#[derive(Clone, Copy)]
pub struct ProgressLine {
    done: u64,
    all: u64,
}

impl ProgressLine {
    /// Makes the line of these numbers.
    pub fn new(done: u64, all: u64) -> ProgressLine
        // The line has the numbers that were given.
        ensures done { result.done ≡ done }
        ensures all { result.all ≡ all }
    {
        ProgressLine { done, all }
    }

    /// Returns the share of the bytes that are done, in whole per cent.
    pub fn share(&self) -> u128
        // The share is `done` in per cent of `all`, rounded down, if `done` is below `all`, and 100 otherwise.
        ensures value { result ≡ spec.share self.now.done self.now.all }
        // The share is at most 100.
        ensures most { result ≤ 100 }
    {
        if self.done < self.all {
            u128::from(self.done) * 100 / u128::from(self.all)
        } else {
            100
        }
    }
}

/// Returns a number of bytes in whole units: those in which the number `shown` is shown.
fn in_units(bytes: u64, shown: u64) -> u64
    ensures { result ≡ bytes / spec.unit_size shown }
{
    if shown < 10_000_000 {
        bytes / 1_000
    } else {
        bytes / 1_000_000
    }
}

/// Returns the name of the unit in which a number of bytes is shown.
fn unit_name(shown: u64) -> &'static str
    ensures { result.now ≡ spec.unit_name shown }
{
    if shown < 10_000_000 { "kB" } else { "MB" }
}

/// Prints how many bytes of all are done, and their share, or only how many are done if the number of all bytes is
/// unknown.
impl fmt::Display for ProgressLine {
    ghost use Rattle.std.specs.Prelude.{Some};
    ghost use Rattle.orc_cli_commands.specs.Progress.{line_text};

    ghost output = { λ line. Some (line_text line.done line.all) };

    fn fmt<W: fmt::Write>(&self, f: &mut fmt::Formatter<W>) -> fmt::Result {
        let (done, all) = (self.done, self.all);
        if all == 0 {
            return write!(f, "orcm: {} {}", in_units(done, done), unit_name(done));
        }
        write!(
            f,
            "orcm: {} of {} {}, {} %",
            in_units(done.min(all), all),
            in_units(all, all),
            unit_name(all),
            self.share()
        )
    }
}
