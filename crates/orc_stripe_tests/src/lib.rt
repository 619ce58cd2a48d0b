//! Tests by public calls of `orc_stripe`, of what makes a stripe and reads it, and of `orc_skipping`, which rows of it may
//! be skipped. They stand apart, so that neither is proved again with them; those of other crates that need no stripe stand
//! in `orc_column_tests`, which takes longer.
//! What no file shows that the program reads or writes stands here; the rest stands in vectors/ and scripts/cases/.
#![tactic(auto)]

#[cfg(test)]
mod assertions;
#[cfg(test)]
mod indexes;
#[cfg(test)]
mod reading;
#[cfg(test)]
mod skipping;
#[cfg(test)]
mod writing;
