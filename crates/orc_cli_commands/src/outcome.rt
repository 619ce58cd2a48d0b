//! How a request ends that was carried out.
ghost use Rattle.std.specs.Prelude.{◌≡◌, ◌<◌};
ghost use Rattle.orc_cli_commands.specs.declared.outcome.Outcome.TheVariants.{Done, Found};

/// How a request ended that was carried out.
#[derive(Clone, Copy, Debug, PartialEq, Eq)]
pub enum Outcome {
    /// The request is done, and it was no check, or the checked file has no findings.
    Done,
    /// The request is done: a file was checked, and it has findings.
    Found,
}

impl Outcome {
    /// Returns the outcome of a check that had this number of findings.
    pub(crate) fn of_findings(number: usize) -> Outcome
        ensures none { number ≡ 0 → result ≡ Done }
        ensures some { 0 < number → result ≡ Found }
    {
        if number == 0 {
            Outcome::Done
        } else {
            Outcome::Found
        }
    }

    /// Returns the program's exit status.
    pub fn status(self) -> u8
        // The status is 0 for `Done`, and 3 for `Found`.
        ensures done { self ≡ Done → result ≡ 0 }
        ensures found { self ≡ Found → result ≡ 3 }
    {
        match self {
            Outcome::Done => 0,
            Outcome::Found => 3,
        }
    }
}
