//! Laws of files that are read. Each function does nothing: its contract is what it is for.
mod of_caps;
mod of_rows;

pub use of_caps::cap_laws;
pub use of_rows::{row_laws, whole_laws};
