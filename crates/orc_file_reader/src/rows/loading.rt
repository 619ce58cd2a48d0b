//! Loads the bytes of a stripe, and makes views and rows of them.
ghost use Rattle.std.specs.Prelude.{◌≡◌, ◌≢◌, ◌<◌, ◌≤◌, ◌^◌, ◌⊎◌, length, false, Err, OnOk, IfOk, IfErr, vec_capacity};
ghost use Rattle.std.specs.Bool.{OnTrue, OnFalse};
ghost use Rattle.orc_column_reader.specs.Stripe.{IsStripe};
ghost use Rattle.orc_directory.specs.declared.fault.StripeFault.{StripeFault};
ghost use Rattle.orc_directory.specs.declared.fault.StripeFault.TheVariants as stripe;
ghost use Rattle.orc_values.specs.Views.{views};
ghost use Rattle.orc_tail.specs.Stripes.{AllBefore, most_bytes, stripe_length, stripe_at, stripes_length};
ghost use Rattle.orc_file_reader.specs.FileRows.{IsNoStripe};
ghost use Rattle.orc_file_reader.specs.Loading.{LoadsStripe, ViewsStripe};
ghost use Rattle.orc_tail.specs.Caps.{no_cap};
ghost use Rattle.orc_tail.specs.declared.fault.FileFault.TheVariants.{Stripe, SourceFailed, OutOfMemory, Limit};

use crate::file::OrcFile;
use orc_io::Source;
use orc_stripe_reader::StripeView;
use orc_tail::{FileFault, Tail, stripe_fault, stripe_length};
use orc_values::Row;
use std::alloc::Global;

/// Fills the vector with the bytes of stripe `number`, which are read in one call of the source; in none if the stripe
/// has no bytes. The tail must have this stripe, and its stripes must end within the source and have at most 2^40 bytes
/// together.
///
/// # Errors
///
/// `SourceFailed` if the read fails, and `OutOfMemory` if there is no memory. The vector may have any contents then.
pub fn load_stripe<S: Source>(
    source: &mut S,
    tail: &Tail,
    number: usize,
    into: &mut Vec<u8>,
) -> Result<(), FileFault>
    requires there { number < length tail.now.stripes }
    requires within { AllBefore (S.size source.old) tail.now.stripes }
    requires most { stripes_length tail.now.stripes ≤ most_bytes }
    // If the tail has stripe `number`, and its stripes end within the source and have at most 2^40 bytes together, then
    // `into` has as many bytes as the stripe after a success, and they are the stripe's bytes if the source's bytes are
    // known. The source has its former length, and the same is known of its bytes. Its count of failures rises by one
    // with `SourceFailed`, and stays the same after a success and after any other error. `OutOfMemory` comes only if
    // the capacity of `into` was less than the stripe's length.
    ensures loaded { LoadsStripe S.told S.size S.failures source.old source.new (stripe_at tail.now.stripes number)
        (vec_capacity into.old) into.new.items result }
    // If the tail has stripe `number`, and its stripes end within the source and have at most 2^40 bytes together, then
    // an error is `OutOfMemory` or `SourceFailed`.
    ensures fault { IfErr result (λ fault. (fault ≡ OutOfMemory) ⊎ (fault ≡ SourceFailed)) }
{
    let stripe = tail.stripes.as_slice()[number];
    let len = stripe_length(stripe);
    into.clear();
    into.resize(len as usize, 0)?;
    if len > 0 && source.read_at(stripe.offset, into).is_err() {
        return Err(FileFault::SourceFailed);
    }
    Ok(())
}

/// Returns the view of stripe `number` over its bytes. The tail must have this stripe.
///
/// # Errors
///
/// `Stripe` with the number and the fault of `StripeView::open`, and `OutOfMemory` if there is no memory.
pub fn view_stripe<'a>(
    alloc: Global,
    tail: &'a Tail,
    number: usize,
    bytes: &'a [u8],
) -> Result<StripeView<'a>, FileFault>
    requires { number < length tail.now.stripes }
    // A returned view is the view of the tail's stripe `number` over `bytes`, with the tail's schema and stride, and
    // its footer is a footer of the stripe in `bytes`. If `bytes` have a footer of this stripe, then the view is
    // returned with this footer, or the error is `OutOfMemory`. An error is `OutOfMemory`, or `Stripe` with `number`
    // and the reason, never `OutOfMemory`, why `bytes` aren't opened as this stripe.
    ensures { ViewsStripe tail.now number bytes.now result }
{
    let stripe = tail.stripes.as_slice()[number];
    match StripeView::open(alloc, &tail.schema, stripe, tail.stride, bytes) {
        Ok(view) => Ok(view),
        Err(cause) => Err(stripe_fault(number, cause)),
    }
}

/// Returns the rows of stripe `number`, from its bytes. Their texts and byte strings are slices of these bytes. The
/// tail must have this stripe.
///
/// # Errors
///
/// `Stripe` with the number and the reason why the bytes are no stripe of any rows, and `OutOfMemory` if there is no
/// memory.
pub fn stripe_rows<'a>(
    alloc: Global,
    tail: &'a Tail,
    number: usize,
    bytes: &'a [u8],
) -> Result<Vec<Row<'a>>, FileFault>
    requires { number < length tail.now.stripes }
    // If rows are returned, then `bytes` are the tail's stripe `number` with these rows.
    ensures found { IfOk result
        (λ rows. IsStripe tail.now.schema (stripe_at tail.now.stripes number) bytes.now (views rows.items)) }
    // An error is `OutOfMemory`, or `Stripe` with `number` and the reason, never `OutOfMemory`, why `bytes` are not the
    // tail's stripe `number` with any rows.
    ensures fault { IfErr result (λ fault. (fault ≡ OutOfMemory)
        ⊎ ((why : StripeFault) × (fault ≡ Stripe number why) × (why ≢ stripe.OutOfMemory)
        × IsNoStripe tail.now.schema (stripe_at tail.now.stripes number) bytes.now why)) }
{
    let view = view_stripe(alloc, tail, number, bytes)?;
    match view.rows(alloc) {
        Ok(rows) => Ok(rows),
        Err(cause) => Err(stripe_fault(number, cause)),
    }
}

impl<S: Source> OrcFile<S> {
    /// Returns whether stripe `number` is longer than the cap.
    fn is_above_cap(&self, number: usize) -> bool
        requires { number < length self.now.tail.stripes }
        ensures yes { OnTrue result (self.now.cap < stripe_length (stripe_at self.now.tail.stripes number)) }
        ensures no { OnFalse result (stripe_length (stripe_at self.now.tail.stripes number) ≤ self.now.cap) }
        ensures never { self.now.cap ≡ no_cap → result ≡ false }
    {
        let len = stripe_length(self.tail.stripes.as_slice()[number]);
        len > self.cap
    }

    /// Fills the vector with the bytes of stripe `number`, which are read in one call of the source; in none if the
    /// stripe has no bytes. The file must have this stripe.
    ///
    /// # Errors
    ///
    /// - `Limit` if the stripe is longer than the file's cap. The source isn't read then, and the vector is unchanged.
    /// - `SourceFailed` if the read fails. The vector may have any contents then.
    /// - `OutOfMemory` if there is no memory. The vector may have any contents then.
    ///
    /// After each error the file can be used as before.
    pub fn load(&mut self, number: usize, into: &mut Vec<u8>) -> Result<(), FileFault>
        requires { number < length self.old.tail.stripes }
        // After a success `into` has as many bytes as stripe `number`, and they are the stripe's bytes if the source's
        // bytes are known. The source has its former length, and the same is known of its bytes. Its count of failures
        // rises by one with `SourceFailed`, and stays the same after a success and after any other error. `OutOfMemory`
        // comes only if the capacity of `into` was less than the stripe's length.
        ensures loaded { LoadsStripe S.told S.size S.failures self.old.source self.new.source
            (stripe_at self.old.tail.stripes number) (vec_capacity into.old) into.new.items result }
        // The file keeps its tail and its cap.
        ensures tail { self.new.tail ≡ self.old.tail }
        ensures cap { self.new.cap ≡ self.old.cap }

        // If stripe `number` is longer than the file's cap, then the error is `Limit`, and the file and `into`
        // are unchanged.
        ensures limit { self.old.cap < stripe_length (stripe_at self.old.tail.stripes number)
            → (result ≡ Err Limit) × ((self.new ≡ self.old) × (into.new ≡ into.old)) }
        // If the call succeeds, then stripe `number` is no longer than the file's cap.
        ensures within { OnOk result (stripe_length (stripe_at self.old.tail.stripes number) ≤ self.old.cap) }
        // An error is `OutOfMemory`, `SourceFailed` or `Limit`, and `Limit` comes only if stripe `number` is
        // longer than the file's cap.
        ensures fault { IfErr result (λ fault. (fault ≡ OutOfMemory) ⊎ ((fault ≡ SourceFailed)
            ⊎ ((fault ≡ Limit) × (self.old.cap < stripe_length (stripe_at self.old.tail.stripes number))))) }
        // If the file's cap is 2^64 - 1, then an error is `OutOfMemory` or `SourceFailed`.
        ensures uncapped { self.old.cap ≡ no_cap → IfErr result
            (λ fault. (fault ≡ OutOfMemory) ⊎ (fault ≡ SourceFailed)) }
    {
        if self.is_above_cap(number) {
            return Err(FileFault::Limit);
        }
        load_stripe(&mut self.source, &self.tail, number, into)
    }

    /// Returns the view of stripe `number` over its bytes. The file must have this stripe.
    ///
    /// # Errors
    ///
    /// `Stripe` with the number and the fault of `StripeView::open`, and `OutOfMemory` if there is no memory.
    pub fn view<'a>(
        &'a self,
        alloc: Global,
        number: usize,
        bytes: &'a [u8],
    ) -> Result<StripeView<'a>, FileFault>
        requires { number < length self.now.tail.stripes }
        // A returned view is the view of stripe `number` over `bytes`, with the file's schema and stride, and its
        // footer is a footer of the stripe in `bytes`. If `bytes` have a footer of this stripe, then the view is
        // returned with this footer, or the error is `OutOfMemory`. An error is `OutOfMemory`, or `Stripe` with
        // `number` and the reason, never `OutOfMemory`, why `bytes` aren't opened as this stripe.
        ensures { ViewsStripe self.now.tail number bytes.now result }
    {
        view_stripe(alloc, &self.tail, number, bytes)
    }
}
