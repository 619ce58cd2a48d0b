//! Errors of commands.

use orc_json_rows::JsonFault;
use orc_rle::RunFault;
use orc_tail::FileFault;
use orc_trees::TypeFault;
use std::alloc::AllocError;
use thiserror::Error;

/// The fault of the layer in which a command failed. Its text is the layer, the fault's number and name in that
/// layer, and its place if it has one; an inner layer's fault follows.
///
/// If the allocator refuses memory, or if the program itself can't open a file or write its output, then that is a
/// fault of the layer of files. Merging has faults of its own, those of `orc_merger`.
#[derive(Clone, Copy, Debug, PartialEq, Eq, Error)]
pub enum CliFault {
    /// The bytes aren't a stream of integer runs.
    #[error("{0}")]
    Run(RunFault),
    /// A schema's text could not be read or made.
    #[error("{0}")]
    Types(TypeFault),
    /// A text isn't the JSON that was expected, or a row has no JSON.
    #[error("{0}")]
    Json(JsonFault),
    /// A file could not be read or written.
    #[error("{0}")]
    File(FileFault),
}

impl From<TypeFault> for CliFault {
    ghost use Rattle.std.specs.Prelude.{◌≡◌};
    ghost use Rattle.orc_cli_output.specs.declared.fault.CliFault.TheVariants.{Types};

    ghost from_gives = { λ types fault. fault ≡ Types types };

    fn from(types: TypeFault) -> CliFault {
        CliFault::Types(types)
    }
}

impl From<JsonFault> for CliFault {
    ghost use Rattle.std.specs.Prelude.{◌≡◌};
    ghost use Rattle.orc_cli_output.specs.declared.fault.CliFault.TheVariants.{Json};

    ghost from_gives = { λ json fault. fault ≡ Json json };

    fn from(json: JsonFault) -> CliFault {
        CliFault::Json(json)
    }
}

impl From<FileFault> for CliFault {
    ghost use Rattle.std.specs.Prelude.{◌≡◌};
    ghost use Rattle.orc_cli_output.specs.declared.fault.CliFault.TheVariants.{File};

    ghost from_gives = { λ file fault. fault ≡ File file };

    fn from(file: FileFault) -> CliFault {
        CliFault::File(file)
    }
}

impl From<AllocError> for CliFault {
    ghost use Rattle.std.specs.Prelude.{◌≡◌};
    ghost use Rattle.orc_tail.specs.declared.fault.FileFault.TheVariants as file;
    ghost use Rattle.orc_cli_output.specs.declared.fault.CliFault.TheVariants.{File};

    ghost from_gives = { λ _ fault. fault ≡ File file.OutOfMemory };

    fn from(_fault: AllocError) -> CliFault {
        CliFault::File(FileFault::OutOfMemory)
    }
}
