//! Writes the end of a file.
ghost use Rattle.std.specs.Prelude.{◌≡◌, ◌<◌, ◌≤◌, ◌^◌, ◌⊎◌, ℕ, true, take, length, IfOk, IfErr, OnOk, OnErr};
ghost use Rattle.orc_types.specs.Schemas.{IsSchema};
ghost use Rattle.orc_io.specs.Devices.{appended};
ghost use Rattle.orc_io.specs.Leaves.{LeavesSink};
ghost use Rattle.orc_tail.specs.Stripes.{stripes_rows};
ghost use Rattle.orc_tail.specs.Images.{tail_text};
ghost use Rattle.orc_file_writer.specs.Counts.{are_laid_with_few_rows, are_all_stats};
ghost use Rattle.orc_file_writer.specs.Writing.{version_of, written_tail, AreWithinFile};
ghost use Rattle.orc_tail.specs.declared.fault.FileFault.TheVariants.{WriteFailed, OutOfMemory};

use orc_io::{Sink, write_all};
use orc_rle::Rle;
use orc_row_batch::Options;
use orc_stats::Stat;
use orc_tail::{FileFault, Tail, file_statistics};
use orc_types::Schema;
use orc_wire::{Items, StripeInfo};
use std::alloc::{AllocError, Global};

fn version(alloc: Global, rle: Rle) -> Result<Vec<u32>, AllocError>
    ensures { IfOk result (λ v. v.items ≡ version_of rle) }
{
    match rle {
        Rle::One => [0, 11].to_vec(alloc),
        Rle::Two => [0, 12].to_vec(alloc),
    }
}

/// The records of the written stripes, and the statistics of their columns.
#[derive(Drop)]
pub(crate) struct Stripes {
    pub infos: Vec<StripeInfo>,
    pub stats: Vec<Items<Stat>>,
    /// The number of rows of all stripes together.
    pub rows: u64,
}

/// Makes the tail of a file with these stripes.
fn tail_of(
    alloc: Global,
    options: Options,
    schema: Schema,
    stripes: Stripes,
) -> Result<Tail, FileFault>
    requires rows { stripes.rows ≡ stripes_rows stripes.infos.items }
    requires few { length stripes.stats.items ≡ length stripes.infos.items }
    requires within { AreWithinFile stripes.infos.items }
    requires stats { are_all_stats schema stripes.stats.items ≡ true }
    ensures found { IfOk result (λ tail. tail ≡ written_tail options schema stripes.infos.items stripes.stats.items) }
    ensures refused { IfErr result (λ fault. fault ≡ OutOfMemory) }
{
    let Stripes { infos, stats, rows } = stripes;
    let file_stats = match file_statistics(alloc, &schema, &stats) {
        Ok(file_stats) => file_stats,
        // 65,536 stripes of fewer than 2^31 values have fewer than 2^48 together
        Err(_) => return Err(FileFault::OutOfMemory),
    };
    Ok(Tail {
        version: Items::from_vec(version(alloc, options.rle())?),
        writer: Some(99),
        writer_version: Some(6),
        schema,
        stripes: Items::from_vec(infos),
        stripe_stats: Items::from_vec(stats),
        file_stats: Items::from_vec(file_stats),
        user: Items::from_vec(Vec::new(alloc)),
        stride: options.stride(),
        rows,
        other: Items::from_vec(Vec::new(alloc)),
    })
}

/// Writes the tail of a file with these stripes, and returns it.
pub(crate) fn end_file<W: Sink>(
    alloc: Global,
    options: Options,
    schema: Schema,
    stripes: Stripes,
    out: &mut W,
) -> Result<Tail, FileFault>
    requires rows { stripes.rows ≡ stripes_rows stripes.infos.items }
    requires few { length stripes.stats.items ≡ length stripes.infos.items }
    requires within { AreWithinFile stripes.infos.items }
    requires laid { are_laid_with_few_rows 3 stripes.infos.items ≡ true }
    requires stats { are_all_stats schema stripes.stats.items ≡ true }
    ensures tail { IfOk result (λ tail. tail ≡ written_tail options schema stripes.infos.items stripes.stats.items) }
    ensures told { IfOk result (λ tail. W.told out.new ≡ appended (W.told out.old)
        (tail_text (written_tail options schema stripes.infos.items stripes.stats.items))) }
    ensures few { IfOk result
        (λ _. length (tail_text (written_tail options schema stripes.infos.items stripes.stats.items)) < 2 ^ 63) }
    ensures schema { IsSchema schema }
    ensures cut { OnErr result ((n : ℕ)
        × (W.told out.new ≡ appended (W.told out.old)
        (take n (tail_text (written_tail options schema stripes.infos.items stripes.stats.items))))) }
    ensures refused { IfErr result (λ e. (e ≡ WriteFailed) ⊎ (e ≡ OutOfMemory)) }
    ensures sink { LeavesSink W.failures WriteFailed out.old out.new result }
{
    schema.limit_laws();
    let tail = tail_of(alloc, options, schema, stripes)?;
    let mut text = Vec::new(alloc);
    tail.put(&mut text)?;
    match write_all(out, &text) {
        Ok(()) => Ok(tail),
        Err(_) => Err(FileFault::WriteFailed),
    }
}
