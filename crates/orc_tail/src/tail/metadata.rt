//! Reads the metadata.
ghost use Rattle.std.specs.Prelude.{◌≡◌, ◌⊎◌, IfOk, IfErr};
ghost use Rattle.orc_tail.specs.Tails.{metadata_tests, IsOfTail};
ghost use Rattle.orc_tail.specs.Statistics.{have_few};
ghost use Rattle.orc_tail.specs.declared.fault.FileFault.TheVariants.{OutOfMemory};

use crate::fault::FileFault;
use orc_types::Schema;
use orc_wire::{Footer, Message, Metadata, StripeStatistics, WireFault};
use std::alloc::Global;

/// Returns whether no stripe has statistics of more than `columns` columns.
fn have_few_stats(stats: &[StripeStatistics], columns: usize) -> bool
    ensures { result ≡ have_few columns stats.now }
{
    for one in stats {
        if one.col_stats.as_slice().len() > columns {
            return false;
        }
    }
    true
}

/// Reads the metadata from its bytes, in a file with this footer and schema.
///
/// # Errors
///
/// The fault of the first test that the bytes fail, or `OutOfMemory`.
pub(crate) fn metadata_in(
    alloc: Global,
    text: &[u8],
    footer: &Footer,
    schema: &Schema,
) -> Result<Metadata, FileFault>
    ensures found { IfOk result (λ m. (metadata_tests text.now footer.now schema.now).finds m) }
    ensures fault { IfErr result (λ fault. (fault ≡ OutOfMemory)
        ⊎ (metadata_tests text.now footer.now schema.now).fails fault) }
    ensures named { IfErr result (λ fault. IsOfTail fault) }
{
    let metadata = match Metadata::read(alloc, text) {
        Ok(metadata) => metadata,
        Err(WireFault::OutOfMemory) => return Err(FileFault::OutOfMemory),
        Err(_) => return Err(FileFault::BadMetadata),
    };
    if metadata.stripe_stats.as_slice().len() > footer.stripes.as_slice().len() {
        return Err(FileFault::BadMetadata);
    }
    if !have_few_stats(metadata.stripe_stats.as_slice(), schema.width()) {
        return Err(FileFault::BadMetadata);
    }
    Ok(metadata)
}
