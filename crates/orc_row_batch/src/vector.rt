//! A column's cells as a batch keeps them.
ghost use Rattle.std.specs.Prelude.{◌≡◌, ◌++◌, [], ◌∷◌, map, length, string_bytes, IfOk, OnOk};
ghost use Rattle.orc_values.specs.Own.{own_cell};
ghost use Rattle.orc_row_batch.specs.Kept.{kept, kept_cell_of, text_in, binary_in, nothing, with_cells, told};

use crate::blocks::Blocks;
use crate::kept_cell::KeptCell;
use orc_values::Own;
use std::alloc::{AllocError, Global};

/// A column's cells, without their children. All texts of the column are kept in one block, and all its byte strings in
/// another, in the order of the cells: so a cell is small, and no cell needs an allocation of its own.
#[derive(Drop)]
pub(crate) struct ColumnVector {
    cells: Vec<KeptCell>,
    texts: String,
    bytes: Vec<u8>,
}

impl ColumnVector {
    /// Makes a vector without cells.
    pub(crate) fn new(alloc: Global) -> ColumnVector
        ensures { kept result ≡ nothing }
    {
        ColumnVector {
            cells: Vec::new(alloc),
            texts: String::new(alloc),
            bytes: Vec::new(alloc),
        }
    }

    /// Returns the number of cells.
    pub(crate) fn len(&self) -> usize
        ensures { result ≡ length self.now.cells.items }
    {
        self.cells.len()
    }

    /// Removes all cells and keeps the allocated memory.
    pub(crate) fn clear(&mut self)
        ensures { kept self.new ≡ nothing }
    {
        self.cells.clear();
        self.texts.clear();
        self.bytes.clear();
    }

    /// Keeps the bytes of a text or a byte string. Returns the cell without them.
    #[tactic(auto, using(orc_values::proofs::Childless::elements_many, orc_values::proofs::Childless::pairs_many))]
    fn push_bytes(&mut self, own: Own<'_>) -> Result<KeptCell, AllocError>
        ensures cell { IfOk result (λ cell. cell ≡ kept_cell_of (own_cell own.entry)) }
        ensures texts { OnOk result (string_bytes self.new.texts ≡ string_bytes self.old.texts ++ text_in (own_cell own.entry)) }
        ensures bytes { OnOk result (self.new.bytes.items ≡ self.old.bytes.items ++ binary_in (own_cell own.entry)) }
        ensures cells { self.new.cells ≡ self.old.cells }
    {
        match own {
            Own::Null => Ok(KeptCell::Null),
            Own::Bool(truth) => Ok(KeptCell::Bool(truth)),
            Own::Int(number) => Ok(KeptCell::Int(number)),
            Own::Date(day) => Ok(KeptCell::Date(day)),
            Own::Text(text) => {
                self.texts.push_str(text)?;
                Ok(KeptCell::Text(text.len()))
            }
            Own::Bytes(bytes) => {
                self.bytes.extend_from_slice(bytes)?;
                Ok(KeptCell::Bytes(bytes.len()))
            }
            Own::List(size) => Ok(KeptCell::List(size)),
            Own::Map(size) => Ok(KeptCell::Map(size)),
            Own::Struct => Ok(KeptCell::Struct),
        }
    }

    /// Adds a cell at the end. If memory is refused, the bytes of the cell may be kept without the cell.
    pub(crate) fn push(&mut self, own: Own<'_>) -> Result<(), AllocError>
        ensures { OnOk result (kept self.new ≡ with_cells (own_cell own.entry ∷ []) (kept self.old)) }
    {
        let cell = self.push_bytes(own)?;
        self.cells.push(cell)?;
        Ok(())
    }

    /// Returns the cells with their texts and byte strings. The blocks have each cell's bytes, so the call fails only
    /// if there is no memory.
    pub(crate) fn owns(&self, alloc: Global) -> Result<Vec<Own<'_>>, AllocError>
        ensures { IfOk result (λ owns. map own_cell owns.items ≡ told (kept self.now)) }
    {
        let mut left = Blocks {
            texts: self.texts.as_str(),
            bytes: self.bytes.as_slice(),
        };
        let mut owns = Vec::with_capacity(alloc, self.cells.len())?;
        for cell in &self.cells {
            let Some(own) = left.next_own(*cell) else {
                return Err(AllocError);
            };
            owns.push(own)?;
        }
        Ok(owns)
    }
}
