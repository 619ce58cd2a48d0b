//! The rest of a column's texts and byte strings while its cells are read in order.
ghost use Rattle.std.specs.Prelude.{◌≡◌, take, drop, IfSome, OnSome};
ghost use Rattle.orc_values.specs.Own.{own_cell};
ghost use Rattle.orc_row_batch.specs.Kept.{cell_of, text_size, bytes_size};

use crate::kept_cell::KeptCell;
use orc_values::Own;

/// The texts and the byte strings of the cells that are still to be read, each joined in order.
#[derive(Clone, Copy)]
pub(crate) struct Blocks<'r> {
    pub(crate) texts: &'r str,
    pub(crate) bytes: &'r [u8],
}

impl<'r> Blocks<'r> {
    /// Returns the next text, which has `size` bytes; `None` if fewer bytes are left or if it would end within a
    /// character.
    fn next_text(&mut self, size: usize) -> Option<&'r str>
        ensures text { IfSome result (λ text. text.now ≡ take size self.old.texts.now) }
        ensures left { OnSome result (self.new.texts.now ≡ drop size self.old.texts.now) }
        ensures others { self.new.bytes ≡ self.old.bytes }
    {
        let (text, others) = self.texts.split_at_checked(size)?;
        self.texts = others;
        Some(text)
    }

    /// Returns the next byte string, which has `size` bytes; `None` if fewer are left.
    fn next_bytes(&mut self, size: usize) -> Option<&'r [u8]>
        ensures bytes { IfSome result (λ bytes. bytes.now ≡ take size self.old.bytes.now) }
        ensures left { OnSome result (self.new.bytes.now ≡ drop size self.old.bytes.now) }
        ensures others { self.new.texts ≡ self.old.texts }
    {
        let (bytes, others) = self.bytes.split_at_checked(size)?;
        self.bytes = others;
        Some(bytes)
    }

    /// Returns the next cell, with its text or its byte string; `None` if this can't be taken.
    pub(crate) fn next_own(&mut self, cell: KeptCell) -> Option<Own<'r>>
        ensures cell { IfSome result (λ own. own_cell own ≡ cell_of cell self.old.texts.now self.old.bytes.now) }
        ensures texts { OnSome result (self.new.texts.now ≡ drop (text_size cell) self.old.texts.now) }
        ensures bytes { OnSome result (self.new.bytes.now ≡ drop (bytes_size cell) self.old.bytes.now) }
    {
        match cell {
            KeptCell::Null => Some(Own::Null),
            KeptCell::Bool(truth) => Some(Own::Bool(truth)),
            KeptCell::Int(number) => Some(Own::Int(number)),
            KeptCell::Date(day) => Some(Own::Date(day)),
            KeptCell::Text(size) => Some(Own::Text(self.next_text(size)?)),
            KeptCell::Bytes(size) => Some(Own::Bytes(self.next_bytes(size)?)),
            KeptCell::List(size) => Some(Own::List(size)),
            KeptCell::Map(size) => Some(Own::Map(size)),
            KeptCell::Struct => Some(Own::Struct),
        }
    }
}
