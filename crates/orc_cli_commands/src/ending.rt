//! Why a command line wasn't carried out.
ghost use Rattle.std.specs.Prelude.{◌≡◌, IfOk, IfErr, Err};
ghost use Rattle.orc_cli_args.specs.declared.command_line.Refusal.TheVariants.{Fault, NotUnderstood};
ghost use Rattle.orc_cli_commands.specs.declared.ending.Ending.TheVariants.{Refused, NotMerged};
ghost use Rattle.orc_cli_output.specs.declared.fault.CliFault.{CliFault};
ghost use Rattle.orc_merger.specs.declared.fault.MergeFault.{MergeFault};

use crate::outcome::Outcome;
use orc_cli_args::Refusal;
use orc_cli_output::CliFault;
use orc_merger::MergeFault;

/// Why a command line wasn't carried out: a fault of a layer or of its words, or a fault of the merger.
#[derive(Clone, Copy, Debug, PartialEq, Eq)]
pub enum Ending {
    Refused(Refusal),
    NotMerged(MergeFault),
}

impl Ending {
    /// Returns the program's exit status.
    pub fn status(self) -> u8
        // The status is 2 if the words of the command line aren't understood, and 1 after a fault of a layer or of
        // the merger.
        ensures words { self ≡ Refused NotUnderstood → result ≡ 2 }
        ensures fault { (fault : CliFault) → self ≡ Refused (Fault fault) → result ≡ 1 }
        ensures merge { (fault : MergeFault) → self ≡ NotMerged fault → result ≡ 1 }
    {
        match self {
            Ending::Refused(Refusal::NotUnderstood) => 2,
            Ending::Refused(Refusal::Fault(_)) => 1,
            Ending::NotMerged(_) => 1,
        }
    }
}

/// Returns how a request ended, once its output was flushed. What was printed before an error is flushed before the
/// error is reported. If flushing fails, then its error is returned, even if the request failed too.
pub fn with_output<W: Drop>(
    answered: Result<Outcome, Ending>,
    flushed: Result<W, CliFault>,
) -> Result<Outcome, Ending>
    // If the flush succeeded, then `answered` is returned.
    ensures answered { IfOk flushed (λ _. result ≡ answered) }
    // If the flush failed, then its error is returned, whatever `answered` is.
    ensures output { IfErr flushed (λ fault. result ≡ Err (Refused (Fault fault))) }
{
    match flushed {
        Ok(_) => answered,
        Err(fault) => Err(Ending::Refused(Refusal::Fault(fault))),
    }
}

impl From<Refusal> for Ending {
    ghost use Rattle.std.specs.Prelude.{◌≡◌};
    ghost use Rattle.orc_cli_commands.specs.declared.ending.Ending.TheVariants.{Refused};

    ghost from_gives = { λ refusal ending. ending ≡ Refused refusal };

    fn from(refusal: Refusal) -> Ending {
        Ending::Refused(refusal)
    }
}

impl From<CliFault> for Ending {
    ghost use Rattle.std.specs.Prelude.{◌≡◌};
    ghost use Rattle.orc_cli_args.specs.declared.command_line.Refusal.TheVariants.{Fault};
    ghost use Rattle.orc_cli_commands.specs.declared.ending.Ending.TheVariants.{Refused};

    ghost from_gives = { λ fault ending. ending ≡ Refused (Fault fault) };

    fn from(fault: CliFault) -> Ending {
        Ending::Refused(Refusal::Fault(fault))
    }
}

impl From<MergeFault> for Ending {
    ghost use Rattle.std.specs.Prelude.{◌≡◌};
    ghost use Rattle.orc_cli_commands.specs.declared.ending.Ending.TheVariants.{NotMerged};

    ghost from_gives = { λ fault ending. ending ≡ NotMerged fault };

    fn from(fault: MergeFault) -> Ending {
        Ending::NotMerged(fault)
    }
}
