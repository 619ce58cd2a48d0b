//! Prints the rows of a file by calls that no command makes, a line each, for scripts/try-calls: `CALL FILE`, or
//! `from FILE STRIPE GROUP`.
#![tactic(auto)]

mod calls;
mod lines;
mod trouble;

use lines::{Call, lines_by_stripes, lines_from, lines_of_file};
use std::alloc::Global;
use std::env;
use std::fs::{self, File};
use std::process::ExitCode;
use std::rt::{Env, Files};
use trouble::Trouble;

fn main(rt: HostRuntime) -> ExitCode {
    match lines_asked(&rt) {
        Ok(lines) => {
            print_all(&rt, &lines);
            ExitCode::SUCCESS
        }
        Err(trouble) => {
            let _ = eprintln!(&rt; "{trouble}");
            ExitCode::FAILURE
        }
    }
}

/// Prints each line.
fn print_all<R: Print>(rt: &R, lines: &[String]) {
    for line in lines {
        let _ = println!(rt; "{line}");
    }
}

/// The lines that the command line asks for.
fn lines_asked<R: Env + Files<File = File> + AllocGlobal>(rt: &R) -> Result<Vec<String>, Trouble> {
    let Ok(words) = env::args(rt) else {
        return Err(Trouble::Words);
    };
    let words: Vec<String> = words.collect(rt.alloc())?;
    match words.as_slice() {
        [_, call, path] => lines_by(rt.alloc(), call, &bytes_of(rt, path)?),
        [_, from, path, stripe, group] if from.as_str() == "from" => {
            let bytes = bytes_of(rt, path)?;
            lines_from(
                rt.alloc(),
                &bytes,
                number_of(stripe)? as usize,
                number_of(group)?,
            )
        }
        _ => Err(Trouble::Words),
    }
}

/// The number that a word is.
fn number_of(word: &str) -> Result<u32, Trouble> {
    match word.parse::<u32>() {
        Ok(number) => Ok(number),
        Err(_) => Err(Trouble::Words),
    }
}

/// The bytes of the file of that path.
fn bytes_of<R: Files<File = File> + AllocGlobal>(rt: &R, path: &str) -> Result<Vec<u8>, Trouble> {
    match fs::read(rt, path) {
        Ok(bytes) => Ok(bytes),
        Err(_) => Err(Trouble::Unread),
    }
}

/// The lines that a call gives of a file's bytes.
fn lines_by(alloc: Global, call: &str, bytes: &[u8]) -> Result<Vec<String>, Trouble> {
    match call {
        "rows" => lines_of_file(alloc, bytes),
        "stripe_rows" => lines_by_stripes(alloc, bytes, Call::StripeRows),
        "view" => lines_by_stripes(alloc, bytes, Call::View),
        "next" => lines_by_stripes(alloc, bytes, Call::Next),
        "rest" => lines_by_stripes(alloc, bytes, Call::Rest),
        _ => Err(Trouble::Words),
    }
}
