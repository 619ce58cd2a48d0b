//! Tests by public calls of the crates below `orc_stripe`: of `orc_bits` (zigzag, varints, widths, packed numbers), of
//! `orc_wire` (fields, numbers, directories, statistics), of `orc_rle` and `orc_positions` (runs, positions in streams of
//! them), of `orc_types` and `orc_values`, of `orc_json`, of `orc_row_batch`, `orc_stats`, `orc_column_walk` and
//! `orc_group_reader`. They stand apart, so that none of these is proved again with them, and together, since a crate of
//! tests takes more than a minute before its first test. None names a stripe, so they don't wait for `orc_stripe`.
//! What no file shows that the program reads or writes stands here; the rest stands in vectors/ and scripts/cases/. What a
//! statistic says, how it joins and how it is written is told by what the program makes of files, but for a tally of both
//! cells and statistics. So is that the columns of a stripe are read and counted, or refused; but no file can tell of more
//! rows than a stripe may have.
#![tactic(auto)]

#[cfg(test)]
mod assertions;
#[cfg(test)]
mod bits;
#[cfg(test)]
mod column_walk;
#[cfg(test)]
mod entering;
#[cfg(test)]
mod json;
#[cfg(test)]
mod messages;
#[cfg(test)]
mod row_batch;
#[cfg(test)]
mod runs;
#[cfg(test)]
mod stats;
#[cfg(test)]
mod types;
