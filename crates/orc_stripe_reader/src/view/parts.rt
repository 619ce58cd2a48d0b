//! The parts of a stripe from which single columns are read.
ghost use Rattle.std.specs.Prelude.{◌≡◌, length, IfOk, IfErr};
ghost use Rattle.orc_values.specs.Shapes.{width};
ghost use Rattle.orc_values.specs.Views.{shape};
ghost use Rattle.orc_directory.specs.Located.{AreLocated};
ghost use Rattle.orc_column_reader.specs.Stripe.{HasFooter};
ghost use Rattle.orc_directory.specs.declared.fault.StripeFault.TheVariants.{OutOfMemory};
ghost use Rattle.orc_stripe_reader.specs.IndexTexts.{AreIndexTexts};

use crate::view::StripeView;
use crate::view::index_texts::{IndexText, index_texts};
use orc_directory::{Located, StripeFault, locate};
use orc_values::Tree;
use orc_wire::StripeFooter;
use std::alloc::{AllocError, Global};

impl<'a> StripeView<'a> {
    /// Returns the tree of the columns' types.
    pub fn tree(&self) -> &'a Tree
        // The answer is a tree of the view's schema.
        ensures { shape result.now ≡ self.now.schema }
    {
        self.schema.tree()
    }

    /// Returns the number of rows that the stripe's record gives.
    pub fn number_of_rows(&self) -> u64
        // The answer is the number of rows in the record of the view's stripe.
        ensures { result ≡ self.now.info.number_of_rows }
    {
        self.info.number_of_rows
    }

    /// Returns the number of rows of a row group; 0 if there are no row indexes.
    pub fn stride(&self) -> u32
        // The answer is the view's stride.
        ensures { result ≡ self.now.stride }
    {
        self.stride
    }

    /// Returns the footer, which has an encoding for each column.
    pub fn footer(&self) -> &StripeFooter
        // The answer is the footer that the view keeps, and the view's bytes are a stripe with this footer.
        ensures same { result.now ≡ self.now.footer }
        ensures there { HasFooter self.now.schema self.now.info self.now.bytes self.now.footer }
    {
        &self.footer
    }

    /// Finds the streams of all columns, in one pass over the directory.
    ///
    /// # Errors
    ///
    /// `OutOfMemory` if there is no memory.
    pub fn locate(&self, alloc: Global) -> Result<Located<'a>, StripeFault>
        // If the call succeeds, then the answer has the view's bytes, and of each column for which the footer has an
        // encoding it has each stream of a kind that cells are read from: the bytes that the footer's directory gives
        // this stream within the view's bytes.
        ensures found { IfOk result (λ located. AreLocated (length self.now.footer.columns)
            self.now.footer.streams self.now.bytes located.slices.items) }
        ensures same { IfOk result (λ located. located.bytes.now ≡ self.now.bytes) }
        // The view's footer has as many encodings as the schema has columns.
        ensures columns { length self.now.footer.columns ≡ width self.now.schema }
        // An error is `OutOfMemory`.
        ensures refused { IfErr result (λ fault. fault ≡ OutOfMemory) }
    {
        locate(alloc, &self.footer, self.bytes)
    }

    /// Finds the bytes of the row indexes of all columns, in one pass over the directory.
    ///
    /// # Errors
    ///
    /// `AllocError` if there is no memory.
    pub fn index_texts(&self, alloc: Global) -> Result<Vec<IndexText<'a>>, AllocError>
        // If the call succeeds, then the answer has one element for each column of the schema: the bytes of the first
        // ROW_INDEX stream that the directory lists for the column, or none if the directory lists no such stream.
        ensures { IfOk result (λ texts.
            AreIndexTexts (width self.now.schema) self.now.footer.streams self.now.bytes texts.items) }
    {
        index_texts(
            alloc,
            self.schema.width(),
            self.footer.streams.as_slice(),
            self.bytes,
        )
    }
}
