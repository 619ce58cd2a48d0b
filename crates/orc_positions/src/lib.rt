//! Positions in streams of runs: what a position names, the positions that a writer makes, how reading goes on from a
//! position, and a table in which positions are looked up.
#![tactic(auto)]

mod laws;
mod places;
mod run_start;

pub use laws::{
    bit_seek_laws, bit_seek_position, byte_seek_laws, byte_seek_position, seek_laws, seek_position,
};
pub use places::{RunTable, byte_place_laws, byte_table, place_laws, run_table};
pub use run_start::{RunStart, byte_run_start_at, run_start_at};
