//! Limits of a stripe: how many cells a column may have, and how many rows the stripe may have.

/// A column of a stripe has fewer cells than this.
pub const CELL_LIMIT: u64 = 1 << 31;

/// The most cells that a column of a stripe may have.
pub const MOST_CELLS: u64 = CELL_LIMIT - 1;

/// The most rows that a stripe may have.
pub const MOST_STRIPE_ROWS: u64 = MOST_CELLS;
