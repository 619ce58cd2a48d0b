//! Cells that are lent: references to rows, in a slice.
use crate::value::Row;

/// A cell that is lent, as one element of a slice of cells.
#[derive(Clone, Copy)]
pub struct Lent<'r, 'a>(pub &'r Row<'a>);
