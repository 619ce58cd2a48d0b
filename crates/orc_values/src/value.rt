//! Values and rows.
use std::borrow::{CowSlice, CowStr};

/// A value that is not null. Texts and bytes are borrowed from a file's bytes, or owned. A date is a number of days
/// since 1970-01-01.
#[cycle(value)]
#[derive(Debug, PartialEq, Drop)]
pub enum Value<'a> {
    Bool(bool),
    Int(i64),
    Date(i32),
    Text(CowStr<'a>),
    Bytes(CowSlice<'a, u8>),
    List(Vec<Row<'a>>),
    Struct(Vec<Row<'a>>),
    Map(Vec<MapPair<'a>>),
}

/// A key of a map and its value. Maps keep the order of their pairs; a key may be null, and may come more than once.
#[cycle(value)]
#[derive(Debug, PartialEq, Drop)]
pub struct MapPair<'a> {
    pub key: Row<'a>,
    pub value: Row<'a>,
}

/// A value or null.
pub type Row<'a> = Option<Value<'a>>;
