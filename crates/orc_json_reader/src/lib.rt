//! Reads a row from the text of its JSON, token by token down a tree of types, with no value of JSON in between.
#![tactic(auto)]

mod field_places;
mod integers;
mod leaf_reading;
mod old_room;
mod reading;
mod unread;

pub use reading::read_value;
pub use unread::Unread;
