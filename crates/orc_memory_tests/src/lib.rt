//! Calls that want memory, a test each. What a test hands to its call it makes with a second try where memory was
//! refused; then it makes the call. Where that is refused for want of memory, the test looks at what stands, and
//! demands the right answer of the call made again; any other refusal fails the test. With memory at hand the tests
//! show only that the calls answer rightly: `scripts/refuse-each-allocation` runs each with one allocation after the
//! other refused.
#![tactic(auto)]

#[cfg(test)]
mod assertions;
#[cfg(test)]
mod files;
#[cfg(test)]
mod joined;
#[cfg(test)]
mod sevens;
#[cfg(test)]
mod stripes;
#[cfg(test)]
mod texts;
#[cfg(test)]
mod writers;
