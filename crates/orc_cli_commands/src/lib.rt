//! The commands of `orcm` as calls of a library, because the crate of a program can't be called: `ints`, `rows`,
//! `show`, `check`, `write` and `merge`. `answer_to` carries out a request over any place that has files.
#![tactic(auto)]

mod answering;
mod buffer;
mod durable;
mod ending;
mod joining;
mod memory_place;
mod meter;
mod new_file;
mod outcome;
mod place;
mod printing;
mod progress;
mod progress_line;
mod system_place;
mod watched;
mod writing;

pub use answering::answer_to;
pub use buffer::{flush_buffer, with_buffer};
pub use durable::{Durable, SystemFile};
pub use ending::{Ending, with_output};
pub use memory_place::MemoryPlace;
pub use meter::{Meter, is_due, meter_of};
pub use new_file::NewFile;
pub use orc_cli_check::check_to;
pub use orc_cli_ints::ints_to;
pub use orc_cli_output::{CliFault, Repeated};
pub use orc_cli_rows::rows_to;
pub use orc_cli_show::show_to;
pub use orc_cli_write::{LineFault, LineReader, StdLines, write_from, write_lines};
pub use orc_merger::{MergeFault, merge as merge_to};
pub use outcome::Outcome;
pub use place::Place;
pub use progress::Progress;
pub use progress_line::ProgressLine;
pub use system_place::SystemPlace;
pub use watched::Watched;
