//! The limits on the stripes, rows and statistics in a footer and in the metadata.
ghost use Rattle.std.specs.Prelude.{◌≡◌, ◌≤◌, ◌⊎◌, length, true, OnOk, IfOk, IfErr};
ghost use Rattle.orc_values.specs.Shapes.{width};
ghost use Rattle.orc_tail.specs.Tails.{limit_tests, IsOfTail};
ghost use Rattle.orc_tail.specs.Statistics.{have_few};
ghost use Rattle.orc_tail.specs.Stripes.{stripe_tests, stripes_rows, stripes_length, most_stripes};
ghost use Rattle.orc_tail.specs.declared.fault.FileFault.TheVariants.{OutOfMemory};

use crate::fault::FileFault;
use crate::tail::extent::stripe_end;
use crate::tail::statistics::{stats_in, stripe_stats_in};
use orc_stats::Stat;
use orc_types::Schema;
use orc_values::MOST_STRIPE_ROWS;
use orc_wire::{Footer, Items, Metadata, StripeInfo};
use std::alloc::Global;

/// The greatest number of stripes of a file.
pub const MOST_STRIPES: usize = 65_536;

/// The greatest number of rows of a file.
pub const MOST_ROWS: u64 = 1 << 40;

/// The greatest number of bytes of all stripes of a file together.
pub const MOST_BYTES: u64 = 1 << 40;

/// Tests that the stripes come one after the other, before the place `before`. Returns the numbers of their rows and
/// bytes.
fn stripes_in(stripes: &[StripeInfo], before: u64) -> Result<(u64, u64), FileFault>
    requires { length stripes.now ≤ most_stripes }
    ensures lie { OnOk result ((stripe_tests 0 3 before stripes.now).finds tt) }
    ensures sums { IfOk result (λ sums. (sums.0 ≡ stripes_rows stripes.now) × (sums.1 ≡ stripes_length stripes.now)) }
    ensures fault { IfErr result (λ fault. (stripe_tests 0 3 before stripes.now).fails fault) }
    ensures named { IfErr result (λ fault. IsOfTail fault) }
{
    let mut from = 3;
    let mut rows = 0;
    let mut bytes = 0;
    for (i, stripe) in stripes.iter().enumerate() {
        let end = stripe_end(stripe);
        if stripe.offset < from || end > u128::from(before) {
            return Err(FileFault::BadStripe(i));
        }
        if stripe.number_of_rows > MOST_STRIPE_ROWS {
            return Err(FileFault::Limit);
        }
        let end = end as u64;
        rows += stripe.number_of_rows;
        bytes += end - stripe.offset;
        from = end;
    }
    Ok((rows, bytes))
}

/// Tests that a footer and metadata, which begins at the place `before`, are within the limits. Returns the statistics
/// of the file's and of the stripes' columns.
///
/// # Errors
///
/// The fault of the first test that the footer and the metadata fail, or `OutOfMemory`.
pub(crate) fn limits_of(
    alloc: Global,
    before: u64,
    footer: &Footer,
    schema: &Schema,
    metadata: &Metadata,
) -> Result<(Items<Stat>, Items<Items<Stat>>), FileFault>
    requires file_stats { length footer.now.statistics ≤ width schema.now }
    requires stripe_stats { have_few (width schema.now) metadata.now.stripe_stats ≡ true }
    ensures found { IfOk result
        (λ stats. (limit_tests before footer.now schema.now metadata.now).finds (stats.0, stats.1)) }
    ensures fault { IfErr result (λ fault. (fault ≡ OutOfMemory)
        ⊎ (limit_tests before footer.now schema.now metadata.now).fails fault) }
    ensures named { IfErr result (λ fault. IsOfTail fault) }
{
    let file_stats = stats_in(alloc, schema, footer.statistics.as_slice())?;
    let stripe_stats = stripe_stats_in(alloc, schema, metadata.stripe_stats.as_slice())?;
    let stripes = footer.stripes.as_slice();
    if stripes.len() > MOST_STRIPES {
        return Err(FileFault::Limit);
    }
    let (rows, bytes) = stripes_in(stripes, before)?;
    if rows != footer.number_of_rows {
        return Err(FileFault::RowCount);
    }
    if rows > MOST_ROWS {
        return Err(FileFault::Limit);
    }
    if bytes > MOST_BYTES {
        return Err(FileFault::Limit);
    }
    Ok((file_stats, stripe_stats))
}
