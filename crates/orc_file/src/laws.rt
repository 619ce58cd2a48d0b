//! Laws of files. The function does nothing: its contract is what it is for.
mod of_writing;

pub use of_writing::written_laws;
