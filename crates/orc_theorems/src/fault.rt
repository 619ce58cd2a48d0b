//! Why a call that checks, joins or opens files fails.
use orc_merger::MergeFault;
use orc_tail::FileFault;

/// Why a call that checks, joins or opens files fails.
#[derive(Clone, Copy, Debug, PartialEq, Eq)]
pub enum CallFault {
    /// A file could not be opened or checked.
    File(FileFault),
    /// Files could not be merged.
    Merge(MergeFault),
}

impl From<FileFault> for CallFault {
    ghost use Rattle.std.specs.Prelude.{◌≡◌};
    ghost use Rattle.orc_theorems.specs.declared.fault.CallFault.TheVariants.{File};

    ghost from_gives = { λ why fault. fault ≡ File why };

    fn from(why: FileFault) -> CallFault {
        CallFault::File(why)
    }
}

impl From<MergeFault> for CallFault {
    ghost use Rattle.std.specs.Prelude.{◌≡◌};
    ghost use Rattle.orc_theorems.specs.declared.fault.CallFault.TheVariants.{Merge};

    ghost from_gives = { λ why fault. fault ≡ Merge why };

    fn from(why: MergeFault) -> CallFault {
        CallFault::Merge(why)
    }
}
