//! Rows that are kept as columns.
ghost use Rattle.std.specs.Prelude.{◌≡◌, ◌++◌, ◌<◌, List, [], ◌∷◌, length, map, true, IfOk, OnOk};
ghost use Rattle.orc_values.specs.Cells.{Cell};
ghost use Rattle.orc_values.specs.Childless.{childless};
ghost use Rattle.orc_values.specs.Columns.{cells};
ghost use Rattle.orc_values.specs.Fits.{fits};
ghost use Rattle.orc_values.specs.Own.{own_cell};
ghost use Rattle.orc_values.specs.Shapes.{Shape};
ghost use Rattle.orc_values.specs.Shapes as spec;
ghost use Rattle.orc_values.specs.Views.{view, shape};
ghost use Rattle.orc_row_batch.specs.Batch.{HasEachColumn, Holds, column_cells};

use crate::keeping::keep_cell;
use crate::vector::ColumnVector;
use orc_values::{Own, Row, Tree};
use std::alloc::{AllocError, Global};

/// Rows of one type, kept as the columns of this type, in pre-order.
#[derive(Drop)]
pub struct RowBatch {
    columns: Vec<ColumnVector>,
}

impl RowBatch {
    /// Makes a batch without rows for a type that has `width` columns.
    ///
    /// # Errors
    ///
    /// `AllocError` if there is no memory.
    pub fn new(alloc: Global, width: usize) -> Result<RowBatch, AllocError>
        // If the call succeeds, then the returned batch holds the empty list of rows of each type that has `width`
        // columns.
        ensures rows { IfOk result (λ batch. (s : Shape) → spec.width s ≡ width → Holds s [] batch) }
        // If the call succeeds, then the returned batch has `width` columns.
        ensures columns { IfOk result (λ batch. length batch.columns.items ≡ width) }
    {
        let mut columns = Vec::with_capacity(alloc, width)?;
        for _column in 0..width {
            columns.push(ColumnVector::new(alloc))?;
        }
        Ok(RowBatch { columns })
    }

    /// Returns the number of rows.
    pub fn len(&self) -> usize
        // If the batch holds a list of rows of some type, then the answer is the length of this list.
        ensures { (s : Shape) (rows : List Cell) → Holds s rows self.now → result ≡ length rows }
    {
        match self.columns.first() {
            Some(column) => column.len(),
            None => 0,
        }
    }

    /// Removes all rows and keeps the allocated memory.
    pub fn clear(&mut self)
        // If the batch has as many columns as a type, then after the call it holds the empty list of rows of this
        // type, even if a push failed before.
        ensures rows { (s : Shape) → HasEachColumn s self.old → Holds s [] self.new }
        // The batch has as many columns after the call as before it.
        ensures columns { length self.new.columns.items ≡ length self.old.columns.items }
    {
        for column in self.columns.iter_mut() {
            column.clear();
        }
    }

    /// Adds a row of the type `tree`. If the push fails, the batch may have a part of the row, so the caller must clear
    /// it.
    ///
    /// # Errors
    ///
    /// `AllocError` if there is no memory.
    pub fn push(&mut self, tree: &Tree, row: &Row<'_>) -> Result<(), AllocError>
        requires { HasEachColumn (shape tree.now) self.old }
        // If the batch holds a list of rows of the type `tree`, `row` fits this type and the push succeeds, then the
        // batch holds this list with `row` added at its end.
        ensures rows { (rows : List Cell) → Holds (shape tree.now) rows self.old → fits (view row.now) (shape tree.now) ≡ true
            → OnOk result (Holds (shape tree.now) (rows ++ view row.now ∷ []) self.new) }
        // If the batch has as many columns as the type `tree`, then it still has as many after the push, even if the
        // push fails.
        ensures columns { HasEachColumn (shape tree.now) self.new }
    {
        keep_cell(tree, row, 0, &mut self.columns)?;
        Ok(())
    }

    /// Returns the cells of a column, without their children: of a list or a map only the size.
    ///
    /// # Errors
    ///
    /// `AllocError` if there is no memory, and for no other reason.
    pub fn owns(&self, alloc: Global, column: usize) -> Result<Vec<Own<'_>>, AllocError>
        requires { column < length self.now.columns.items }
        // If `column` is a column of the batch and the call succeeds, then the returned cells are those that the batch
        // keeps for `column`, each without its children.
        ensures cells { IfOk result (λ owns. map own_cell owns.items ≡ column_cells self.now column) }
        // If the batch holds a list of rows of some type, `column` is a column of the batch and the call succeeds, then
        // the returned cells are the cells of `column` in these rows, each without its children.
        ensures rows { (s : Shape) (rows : List Cell) → Holds s rows self.now
            → IfOk result (λ owns. map own_cell owns.items ≡ map childless (cells s column rows)) }
    {
        self.columns[column].owns(alloc)
    }
}
