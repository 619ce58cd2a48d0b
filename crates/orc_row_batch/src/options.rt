//! How stripes are written.
ghost use Rattle.std.specs.Prelude.{◌≡◌, ◌<◌, ◌≤◌, ◌⊎◌, ◌^◌, IfSome, IfNone};
ghost use Rattle.orc_values.specs.Limits.{cell_limit};

use orc_rle::Rle;
use orc_values::CELL_LIMIT;

/// How stripes are written: the version of integer run lengths, the stride, which is the number of rows of a row group,
/// and the number of rows of a stripe.
#[derive(Clone, Copy, Debug, PartialEq, Eq)]
pub struct Options {
    rle: Rle,
    stride: u32,
    stripe_rows: u32,
    ghost fits: { stride < 2 ^ 32 },
    ghost some: { 0 < stripe_rows },
    ghost most: { stripe_rows < cell_limit },
}

impl Options {
    /// Makes options for stripes of `stripe_rows` rows, with row indexes that have an entry for each group of `stride`
    /// rows, or without row indexes if `stride` is 0.
    ///
    /// Returns `None` if `stripe_rows` is 0 or more than 2,147,483,647.
    pub fn new(rle: Rle, stride: u32, stripe_rows: u32) -> Option<Options>
        // Returned options have the `rle`, the `stride` and the `stripe_rows` that `new` was given.
        ensures some { IfSome result (λ options. (options.rle ≡ rle)
            × (options.stride ≡ stride)
            × (options.stripe_rows ≡ stripe_rows)) }
        // `None` is returned only if `stripe_rows` is 0 or more than 2,147,483,647.
        ensures none { IfNone result ((stripe_rows ≡ 0) ⊎ (cell_limit ≤ stripe_rows)) }
    {
        if stripe_rows == 0 || stripe_rows as u64 >= CELL_LIMIT {
            return None;
        }
        Some(Options {
            rle,
            stride,
            stripe_rows,
        })
    }

    /// Returns the version of integer run lengths.
    pub fn rle(self) -> Rle
        // The answer is the options' version of integer run lengths.
        ensures { result ≡ self.rle }
    {
        self.rle
    }

    /// Returns the number of rows of a row group; 0 if there is no row index.
    pub fn stride(self) -> u32
        // The answer is the options' stride.
        ensures { result ≡ self.stride }
    {
        self.stride
    }

    /// Returns the number of rows of a stripe. The last stripe of a file may have fewer.
    pub fn stripe_rows(self) -> u32
        // The answer is the options' number of rows of a stripe.
        ensures rows { result ≡ self.stripe_rows }
        // The answer is between 1 and 2,147,483,647.
        ensures some { 0 < result }
        ensures most { result < cell_limit }
    {
        self.stripe_rows
    }
}
