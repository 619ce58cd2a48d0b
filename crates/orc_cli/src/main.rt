//! `orcm`, a program for Apache ORC files.
#![tactic(auto)]

use orc_cli_args::{
    Asked, Refusal, Request, read_words, request_of, unread_number, wants_progress, words_of,
};
use orc_cli_commands::{
    Ending, Meter, Outcome, Repeated, SystemPlace, answer_to, flush_buffer, meter_of, with_buffer,
    with_output,
};
use std::fs::File;
use std::io;
use std::process::ExitCode;
use std::rt::{Clock, Env, Files};

fn main(rt: HostRuntime) -> ExitCode {
    match run(&rt) {
        Ok(outcome) => ExitCode::from(outcome.status()),
        Err(ending) => {
            tell(&rt, ending);
            ExitCode::from(ending.status())
        }
    }
}

/// Prints the error on one line of standard error. For a usage error the parser has done so already.
fn tell<R: Eprint>(rt: &R, ending: Ending) {
    match ending {
        Ending::Refused(Refusal::NotUnderstood) => {}
        Ending::Refused(Refusal::Fault(fault)) => {
            let _ = eprintln!(rt; "orcm: {fault}");
        }
        Ending::NotMerged(fault) => {
            let _ = eprintln!(rt; "orcm: {fault}");
        }
    }
}

/// Carries out the request of the command line.
fn run<R: Env + Files<File = File> + AllocGlobal + Print + Eprint + Clock>(
    rt: &R,
) -> Result<Outcome, Ending> {
    let words = words_of(rt)?;
    match read_words(rt, words.as_slice())? {
        Asked::Request(matches) => match request_of(&matches) {
            Some(request) => answer(rt, request, &meter_of(rt, wants_progress(&matches))),
            None => {
                let option = unread_number(&matches).unwrap_or("stride or --stripe-rows");
                let _ = eprintln!(rt;
                    "error: --{option} takes a number in decimal digits alone, without a sign"
                );
                Err(Ending::Refused(Refusal::NotUnderstood))
            }
        },
        Asked::Text => Ok(Outcome::Done),
    }
}

/// Carries out one request over the files of the system, and prints to standard output, whose interrupted writes are
/// made again. The meter's line is wiped before the output is flushed.
fn answer<R: Files<File = File> + AllocGlobal + Print + Eprint + Clock>(
    rt: &R,
    request: Request<'_, '_>,
    meter: &Meter<'_, R>,
) -> Result<Outcome, Ending> {
    let mut out = with_buffer(rt.alloc(), Repeated::new(io::writer(rt)))?;
    let answered = answer_to(
        rt.alloc(),
        &mut SystemPlace::new(rt, meter),
        request,
        &mut out,
    );
    meter.wipe();
    with_output(answered, flush_buffer(out))
}
