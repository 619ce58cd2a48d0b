//! Reads command lines, and opens the files that they name.
#![tactic(auto)]

mod command_line;
mod files;
mod request;

pub use command_line::{Asked, Refusal, matches_of, read_words, words_of};
pub use files::{new_file, source_of};
pub use request::{Request, request_of, unread_number, wants_progress};
