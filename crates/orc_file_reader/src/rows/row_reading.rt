//! Reads a file's rows stripe by stripe, holding the bytes of one stripe at a time.
ghost use Rattle.std.specs.Prelude.{◌≡◌, ◌≢◌, ◌<◌, ◌≤◌, ◌++◌, ◌⊎◌, List, length, OnOk, IfOk, IfErr, IfSome, IsErrOf, MatchResult};
ghost use Rattle.orc_values.specs.Cells.{Cell};
ghost use Rattle.orc_values.specs.Views.{views};
ghost use Rattle.orc_column_reader.specs.Stripe.{IsStripe};
ghost use Rattle.orc_directory.specs.declared.fault.StripeFault.{StripeFault};
ghost use Rattle.orc_directory.specs.declared.fault.StripeFault.TheVariants as stripe;
ghost use Rattle.orc_io.specs.Leaves.{LeavesSource};
ghost use Rattle.orc_tail.specs.Stripes.{stripe_at, stripe_length};
ghost use Rattle.orc_tail.specs.Tails.{IsTail, ReadFault};
ghost use Rattle.orc_file_reader.specs.FileRows.{IsNoStripe, HasMore, FileIs};
ghost use Rattle.orc_tail.specs.Caps.{no_cap};
ghost use Rattle.orc_file_reader.specs.StripeCaps.{AllWithin, CappedRefused, FirstCapped};
ghost use Rattle.orc_file_reader.specs.RowFaults.{IsOfRows};
ghost use Rattle.orc_tail.specs.declared.fault.FileFault.TheVariants.{Stripe, SourceFailed, OutOfMemory, Limit};

use crate::file::OrcFile;
use crate::rows::loading::stripe_rows;
use orc_io::Source;
use orc_tail::FileFault;
use orc_values::{Row, owned};
use std::alloc::{AllocError, Global};

/// Adds copies of rows, which own their texts, at the end of a list.
fn append_owned(
    alloc: Global,
    from: &[Row<'_>],
    rows: &mut Vec<Row<'static>>,
) -> Result<(), AllocError>
    ensures { OnOk result (views rows.new.items ≡ views rows.old.items ++ views from.now) }
{
    for row in from {
        rows.push(owned(alloc, row)?)?;
    }
    Ok(())
}

impl<S: Source> OrcFile<S> {
    /// Returns the rows of stripe `number`, from its bytes. Their texts and byte strings are slices of these bytes. The
    /// file must have this stripe.
    ///
    /// # Errors
    ///
    /// `Stripe` with the number and the reason why the bytes are no stripe of any rows, and `OutOfMemory` if there is
    /// no memory.
    pub fn stripe_rows<'a>(
        &'a self,
        alloc: Global,
        number: usize,
        bytes: &'a [u8],
    ) -> Result<Vec<Row<'a>>, FileFault>
        requires { number < length self.now.tail.stripes }
        // If rows are returned, then `bytes` are stripe `number` with these rows.
        ensures found { IfOk result
            (λ rows. IsStripe self.now.tail.schema (stripe_at self.now.tail.stripes number) bytes.now
            (views rows.items)) }
        // An error is `OutOfMemory`, or `Stripe` with `number` and the reason, never `OutOfMemory`, why `bytes`
        // are not this stripe with any rows.
        ensures fault { IfErr result (λ fault. (fault ≡ OutOfMemory)
            ⊎ ((why : StripeFault) × (fault ≡ Stripe number why) × (why ≢ stripe.OutOfMemory)
            × IsNoStripe self.now.tail.schema (stripe_at self.now.tail.stripes number) bytes.now why)) }
    {
        stripe_rows(alloc, &self.tail, number, bytes)
    }

    /// Reads the rows of stripe `number`, and adds them at the end of a list.
    fn read_stripe(
        &mut self,
        alloc: Global,
        number: usize,
        bytes: &mut Vec<u8>,
        rows: &mut Vec<Row<'static>>,
    ) -> Result<(), FileFault>
        requires { number < length self.old.tail.stripes }
        ensures found { OnOk result (IfSome (S.told self.old.source)
            (λ all. HasMore self.old.tail.schema (stripe_at self.old.tail.stripes number) all (views rows.old.items)
            (views rows.new.items))) }
        ensures within { OnOk result (stripe_length (stripe_at self.old.tail.stripes number) ≤ self.old.cap) }
        ensures tail { self.new.tail ≡ self.old.tail }
        ensures cap { self.new.cap ≡ self.old.cap }

        ensures fault { IfErr result (λ fault. ReadFault (S.told self.old.source) fault
            (λ all. CappedRefused self.old.cap self.old.tail.schema all number
            (stripe_at self.old.tail.stripes number) fault)) }
        ensures limit { IsErrOf result Limit → self.old.cap < stripe_length (stripe_at self.old.tail.stripes number) }
        ensures named { IfErr result (λ fault. (fault ≡ SourceFailed) ⊎ IsOfRows self.old.cap self.old.tail fault) }
        ensures source { LeavesSource S.told S.size S.failures SourceFailed self.old.source self.new.source result }
    {
        self.load(number, bytes)?;
        let own = self.stripe_rows(alloc, number, bytes)?;
        append_owned(alloc, &own, rows)?;
        Ok(())
    }

    /// Reads all rows of the file. They own their texts. Each stripe's bytes are read in one call of the source, and
    /// the bytes of one stripe are held at a time.
    ///
    /// # Errors
    ///
    /// - At the first stripe that is longer than the file's cap or has no rows: `Limit` if it is longer than the cap,
    ///   else `Stripe` with its number and the reason. `Stripe` means that the bytes are no file of any rows.
    /// - `SourceFailed` if a read fails.
    /// - `OutOfMemory` if there is no memory.
    ///
    /// After each error the file can be used as before.
    pub fn rows(&mut self, alloc: Global) -> Result<Vec<Row<'static>>, FileFault>
        // If rows are returned, and the source's bytes are known and have the file's tail, then these bytes are
        // a file with this tail and the returned rows.
        ensures found { IfOk result (λ rows. IfSome (S.told self.old.source) (λ bytes. IsTail bytes self.old.tail
            → FileIs bytes self.old.tail (views rows.items))) }
        // If rows are returned, then no stripe is longer than the file's cap.
        ensures within { OnOk result (AllWithin self.old.cap self.old.tail.stripes) }
        // If no stripe is longer than the file's cap, and the source's bytes are known and are a file with the
        // file's tail and some rows, then these rows are returned, or the error is `OutOfMemory` or
        // `SourceFailed`.
        ensures only { AllWithin self.old.cap self.old.tail.stripes
            → IfSome (S.told self.old.source) (λ bytes. (rows : List Cell) → FileIs bytes self.old.tail rows
            → MatchResult result (λ answered. views answered.items ≡ rows)
            (λ fault. (fault ≡ OutOfMemory) ⊎ (fault ≡ SourceFailed))) }
        // The file keeps its tail and its cap.
        ensures tail { self.new.tail ≡ self.old.tail }
        ensures cap { self.new.cap ≡ self.old.cap }

        // If the source's bytes are known, then an error is `OutOfMemory`, `SourceFailed`, or that of the first
        // stripe that is longer than the file's cap or has no rows. That error is `Limit` if the stripe is
        // longer than the cap, and otherwise `Stripe` with the stripe's number and the reason, never
        // `OutOfMemory`, why it has no rows.
        ensures fault { IfErr result (λ fault. ReadFault (S.told self.old.source) fault
            (λ bytes. FirstCapped self.old.cap self.old.tail.schema bytes 0 self.old.tail.stripes fault)) }
        // If the error is `Limit`, then some stripe is longer than the file's cap, even if the source's bytes
        // are unknown.
        ensures limit { IsErrOf result Limit → AllWithin self.old.cap self.old.tail.stripes → ⊥ }
        // An error is one of four: `SourceFailed`; `OutOfMemory`; `Limit`, only if some stripe is longer than
        // the file's cap; or `Stripe` with the number of a stripe that is no longer than the cap and the
        // reason, never `OutOfMemory`, why some bytes of this stripe's length are not this stripe with any
        // rows.
        ensures named { IfErr result (λ fault. (fault ≡ SourceFailed) ⊎ IsOfRows self.old.cap self.old.tail fault) }
        // If the file's cap is 2^64 - 1, as `OrcFile::open` makes it, then no stripe is longer than the cap.
        ensures uncapped { self.old.cap ≡ no_cap → AllWithin self.old.cap self.old.tail.stripes }
        // The source has its former length, and the same is known of its bytes. Its count of failures rises by
        // one with `SourceFailed`, and stays the same after a success and after any other error.
        ensures source { LeavesSource S.told S.size S.failures SourceFailed self.old.source self.new.source result }
    {
        let mut rows = Vec::new(alloc);
        let mut bytes = Vec::new(alloc);
        for number in 0..self.tail.stripes.as_slice().len() {
            self.read_stripe(alloc, number, &mut bytes, &mut rows)?;
        }
        Ok(rows)
    }
}
