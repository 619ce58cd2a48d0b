//! Tests of the callers of `orc_theorems`, each with memory to spare.
#![tactic(auto)]

#[cfg(test)]
mod assertions;
#[cfg(test)]
mod calls;
#[cfg(test)]
mod joined;
#[cfg(test)]
mod kept;
#[cfg(test)]
mod steps;
#[cfg(test)]
mod written;
