//! Floor: program. It promises the exit status that the top call gives, and one line on standard error where that is not 0. It
//! never judges a script or a volume itself.
#![tactic(auto)]

mod cause;
mod fault;
mod reasons;
mod stopped;

use cause::Cause;
use fault::{Fault, RunFacts, SourceFacts};
use mm_io::{FileSource, OutSink};
use mm_run::{RunEnd, Status, command_of, run};
use std::io;
use std::process::ExitCode;
use stopped::{Stopped, words};

fn main(rt: HostRuntime) -> ExitCode {
    let words = match words(&rt) {
        Ok(words) => words,
        Err(stopped) => return ended(&rt, Some(stopped.fault()), stopped.number()),
    };
    let first_name = word(&words, 1);
    let second_name = word(&words, 2);
    // Neither file is opened before the top call reads it.
    let mut first = FileSource::named(&rt, first_name);
    let mut second = FileSource::named(&rt, second_name);
    let mut out = OutSink::new(io::writer(&rt));
    let status = status_of(run(rt.alloc(), &words, &mut first, &mut second, &mut out));
    let facts = RunFacts {
        command: command_of(words.as_slice()),
        first: SourceFacts::new(first_name, first.last_error()),
        second: SourceFacts::new(second_name, second.last_error()),
        out: Cause(out.last_error()),
    };
    ended(&rt, Fault::of(status, &facts), status.number())
}

/// The status of a run, whose world is given up.
fn status_of(end: RunEnd) -> Status {
    end.status
}

/// A word of the command line; empty, which names no file, where there is none.
fn word(words: &Vec<String>, place: usize) -> &str {
    match words.get(place) {
        Some(word) => word.as_str(),
        None => "",
    }
}

/// Says what went wrong, if anything did, and gives the exit status.
fn ended<R: Eprint>(rt: &R, fault: Option<Fault>, number: u8) -> ExitCode {
    if let Some(fault) = fault {
        let _ = eprintln!(rt; "mm_main: {fault}");
    }
    ExitCode::from(number)
}
