//! The theorems. Each is a function that does nothing: its contract is the statement, and each premise has a name.
//! Beside each theorem stand callers: they make the calls that the theorem speaks of, and their contracts are proved
//! from it. Two statements over definitions of several crates stand here too: `printing_from_the_middle` and
//! `written_finding_laws`.
#![tactic(auto)]

mod cursor_calls;
mod fault;
mod groups_of_rows;
mod groups_of_rows_calls;
mod joined_rows_calls;
mod memory;
mod merged_findings;
mod merged_findings_calls;
mod merging;
mod merging_calls;
mod printed_from_a_group;
mod seeking;
mod skipping;
mod skipping_calls;
mod written_files;
mod written_files_calls;
mod written_findings;
mod written_positions;
mod written_positions_calls;

pub use cursor_calls::{GroupRows, rows_from};
pub use fault::CallFault;
pub use groups_of_rows::reading_from_the_middle;
pub use groups_of_rows_calls::{print_from, print_other_from};
pub use joined_rows_calls::{JoinedRows, append_and_read, join_and_read};
pub use memory::FileInMemory;
pub use merged_findings::findings_of_merges;
pub use merged_findings_calls::{CheckedJoin, join_checked, join_in_steps_checked};
pub use merging::merge_theorem;
pub use merging_calls::{
    in_two_steps, join_both_ways, join_in_groupings, join_in_orders, join_in_steps,
};
pub use printed_from_a_group::printing_from_the_middle;
pub use seeking::{ColumnSought, Sought};
pub use skipping::skipping_in_files;
pub use skipping_calls::matching_groups;
pub use written_files::written_files_read_back;
pub use written_files_calls::{ReadBack, is_written_of, write_and_open, write_and_read, write_to};
pub use written_findings::written_finding_laws;
pub use written_positions::writers_positions;
pub use written_positions_calls::{join_and_seek, join_in_steps_and_seek, write_and_seek};
