//! A cell as a batch keeps it in the cell's column.

/// A cell without its children and without the bytes of its text or byte string. The column keeps these bytes in one
/// block, and the cell has their number. A list or a map has the number of its elements or pairs.
#[derive(Clone, Copy)]
pub enum KeptCell {
    Null,
    Bool(bool),
    Int(i64),
    Date(i32),
    Text(usize),
    Bytes(usize),
    List(u64),
    Map(u64),
    Struct,
}
