//! Tests of `orc_merge` and of `orc_check` by their public calls: files merged and refused, and what is found in files
//! that were changed. They stand apart from both, so that neither is proved again with them.
#![tactic(auto)]

#[cfg(test)]
mod assertions;
#[cfg(test)]
mod calls;
#[cfg(test)]
mod checking;
#[cfg(test)]
mod tests;
