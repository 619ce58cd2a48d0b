//! A cursor: readers of all columns of a stripe, in the middle of their streams.
ghost use Rattle.std.specs.Prelude.{◌≡◌, length};
ghost use Rattle.orc_values.specs.Shapes.{width};
ghost use Rattle.orc_values.specs.Views.{shape};

use orc_column_reader::ColumnReader;
use orc_values::Tree;
use std::alloc::Global;

/// The rows of a stripe, one after the other. A cursor keeps one run of each stream of runs, and whole dictionaries.
#[derive(Drop)]
pub struct RowCursor<'a> {
    pub(crate) alloc: Global,
    pub(crate) tree: &'a Tree,
    pub(crate) readers: Vec<ColumnReader<'a>>,
    // how many rows are still to come
    pub(crate) left: u64,
    pub(crate) failed: bool,
    ghost counted: { length readers.items ≡ width (shape tree.now) },
}
