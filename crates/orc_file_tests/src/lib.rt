//! Tests of `orc_file` by its public calls, and of the devices below it, where no command line brings them about: sources
//! and sinks that fail, caps, stripes loaded, what stands after a refusal. What files have to be read as, refused for and
//! written as, vectors/ and scripts/cases say. They stand apart from both crates, so that neither is proved again with
//! them.
#![tactic(auto)]

#[cfg(test)]
mod assertions;
#[cfg(test)]
mod calls;
#[cfg(test)]
mod devices;
#[cfg(test)]
mod loads;
#[cfg(test)]
mod read_back;
#[cfg(test)]
mod rows_of_files;
#[cfg(test)]
mod tails;
#[cfg(test)]
mod writing;
