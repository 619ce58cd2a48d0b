//! Errors of the calls.
ghost use Rattle.std.specs.Prelude.{◌≡◌};
ghost use Rattle.orc_c.specs.Faults.{layer_of, number_of};

use crate::numbers::{call_number, command_number, merge_number};
use orc_cli_output::CliFault;
use orc_merger::MergeFault;
use thiserror::Error;

/// Why the arguments of a call are invalid.
#[derive(Clone, Copy, Debug, PartialEq, Eq, Error)]
pub enum CallFault {
    /// The lengths of the inputs don't add up to the number of their bytes.
    #[error("call 1 BadLengths")]
    BadLengths,
    /// No file can be written with these options.
    #[error("call 2 BadOptions")]
    BadOptions,
    /// A text isn't UTF-8.
    #[error("call 3 NotUtf8")]
    NotUtf8,
}

/// Why a call failed: the fault of a command, of a merge, or of the call's arguments. Its text is what the program
/// prints after `orcm: `.
#[derive(Clone, Copy, Debug, PartialEq, Eq, Error)]
pub enum Fault {
    #[error("{0}")]
    Command(CliFault),
    #[error("{0}")]
    Merge(MergeFault),
    #[error("{0}")]
    Call(CallFault),
}

impl Fault {
    /// Returns the number of the fault's layer.
    pub fn layer(self) -> u32
        // Returns the number of the fault's layer: 1 for runs, 2 for types, 3 for JSON, 4 for files, 5 for merging,
        // and 6 for the arguments of a call.
        ensures { result ≡ layer_of self }
    {
        match self {
            Fault::Command(CliFault::Run(_)) => 1,
            Fault::Command(CliFault::Types(_)) => 2,
            Fault::Command(CliFault::Json(_)) => 3,
            Fault::Command(CliFault::File(_)) => 4,
            Fault::Merge(_) => 5,
            Fault::Call(_) => 6,
        }
    }

    /// Returns the fault's number in its layer.
    pub fn number(self) -> u32
        // Returns the number that the fault has in its layer.
        ensures { result ≡ number_of self }
    {
        match self {
            Fault::Command(fault) => command_number(fault),
            Fault::Merge(fault) => merge_number(fault),
            Fault::Call(fault) => call_number(fault),
        }
    }
}
