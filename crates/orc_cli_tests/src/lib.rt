//! Tests of the commands by what no command line can bring about: devices of which one call fails, which reads a command
//! makes, lines whose reading fails, files in memory, what words say beside a request, and a clock that is set by hand.
//! What the program prints, writes and refuses, `scripts/try-program` and `scripts/try-vectors` try with the program
//! itself.
#![tactic(auto)]

#[cfg(test)]
mod assertions;
#[cfg(test)]
mod devices;
#[cfg(test)]
mod files;
#[cfg(test)]
mod kept_files;
#[cfg(test)]
mod progress;
#[cfg(test)]
mod reading;
#[cfg(test)]
mod refused_writes;
#[cfg(test)]
mod requests;
#[cfg(test)]
mod screen;
#[cfg(test)]
mod three_stripes;
#[cfg(test)]
mod words;
#[cfg(test)]
mod writing;
