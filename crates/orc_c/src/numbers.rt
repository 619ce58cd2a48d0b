//! The numbers of the faults in their layers, as the faults' texts have them.
ghost use Rattle.std.specs.Prelude.{◌≡◌};
ghost use Rattle.orc_c.specs.Faults as spec;

use crate::fault::CallFault;
use orc_cli_output::CliFault;
use orc_json_rows::JsonFault;
use orc_merger::MergeFault;
use orc_rle::RunFault;
use orc_tail::FileFault;
use orc_trees::TypeFault;

/// Returns the number of a fault of runs.
fn run_number(fault: RunFault) -> u32
    ensures { result ≡ spec.run_number fault }
{
    match fault {
        RunFault::Short(_) => 1,
        RunFault::BadVarint(_) => 2,
        RunFault::ValueRange(_) => 3,
        RunFault::BadDelta(_) => 4,
        RunFault::PatchOrder(_) => 5,
        RunFault::PatchPlace(_) => 6,
        RunFault::PatchRange(_) => 7,
        RunFault::TooFew(_) => 8,
        RunFault::TooMany(_) => 9,
        RunFault::BadPosition(_) => 10,
        RunFault::OutOfMemory => 11,
    }
}

/// Returns the number of a fault of types.
fn type_number(fault: TypeFault) -> u32
    ensures { result ≡ spec.type_number fault }
{
    match fault {
        TypeFault::UnsupportedKind(_) => 1,
        TypeFault::BadTree => 2,
        TypeFault::TooDeep => 3,
        TypeFault::TooMany => 4,
        TypeFault::RootNotStruct => 5,
        TypeFault::BadText(_) => 6,
        TypeFault::OutOfMemory => 7,
    }
}

/// Returns the number of a fault of JSON.
fn json_number(fault: JsonFault) -> u32
    ensures { result ≡ spec.json_number fault }
{
    match fault {
        JsonFault::Syntax => 1,
        JsonFault::WrongShape => 2,
        JsonFault::Range => 3,
        JsonFault::UnknownField => 4,
        JsonFault::DuplicateField => 5,
        JsonFault::BadDate => 6,
        JsonFault::BadHex => 7,
        JsonFault::OutOfMemory => 8,
    }
}

/// Returns the number of a fault of files.
fn file_number(fault: FileFault) -> u32
    ensures { result ≡ spec.file_number fault }
{
    match fault {
        FileFault::NotOrc => 1,
        FileFault::BadPostscript => 2,
        FileFault::Compressed(_) => 3,
        FileFault::Encrypted => 4,
        FileFault::BadLengths => 5,
        FileFault::BadFooter => 6,
        FileFault::BadMetadata => 7,
        FileFault::BadTypes(_) => 8,
        FileFault::BadStripe(_) => 9,
        FileFault::RowCount => 10,
        FileFault::Limit => 11,
        FileFault::Stripe(_, _) => 12,
        FileFault::RowShape => 13,
        FileFault::SourceFailed => 14,
        FileFault::WriteFailed => 15,
        FileFault::OutOfMemory => 16,
        FileFault::Failed => 17,
    }
}

/// Returns the number of a command's fault in its layer.
pub(crate) fn command_number(fault: CliFault) -> u32
    ensures { result ≡ spec.command_number fault }
{
    match fault {
        CliFault::Run(fault) => run_number(fault),
        CliFault::Types(fault) => type_number(fault),
        CliFault::Json(fault) => json_number(fault),
        CliFault::File(fault) => file_number(fault),
    }
}

/// Returns the number of a fault of merging.
pub(crate) fn merge_number(fault: MergeFault) -> u32
    ensures { result ≡ spec.merge_number fault }
{
    match fault {
        MergeFault::NoInput => 1,
        MergeFault::File(_, _) => 2,
        MergeFault::SchemaDiffers(_) => 3,
        MergeFault::VersionDiffers(_) => 4,
        MergeFault::StrideDiffers(_) => 5,
        MergeFault::OtherFooterFields(_) => 6,
        MergeFault::UserMetadataConflict(_) => 7,
        MergeFault::NoStripeStatistics(_) => 8,
        MergeFault::Limit(_) => 9,
        MergeFault::SourceFailed(_) => 10,
        MergeFault::WriteFailed => 11,
        MergeFault::OutOfMemory => 12,
    }
}

/// Returns the number of a fault of a call's arguments.
pub(crate) fn call_number(fault: CallFault) -> u32
    ensures { result ≡ spec.call_number fault }
{
    match fault {
        CallFault::BadLengths => 1,
        CallFault::BadOptions => 2,
        CallFault::NotUtf8 => 3,
    }
}
