//! `cccheck SCRIPT TRANSCRIPT` says whether a transcript is one that the script may have, and else where it parts from all of these.
//!
//! Both are files; one of them may be `-`, which is standard input. It writes one line: `lawful`, and ends with status 0; or where the
//! transcript parts from every lawful one, and why, and ends with status 1. The line that it names is what `cc_check::find_parting`
//! finds, and so is the cause; the contract there says what they are. The limits are those of `ccreplay replay`, and so are the other
//! statuses. With `--help` it writes its help, and ends with status 0.
#![tactic(auto)]

mod words;

use crate::words::{Paths, help, limits_of, matches_of, paths_of};
use cc_check::{CheckStop, Parting, describe, find_parting};
use cc_names::Limits;
use cc_outside::StdSource;
use std::fs::File;
use std::io::{ErrorKind, Read, Write};
use std::process::ExitCode;
use std::{env, fs, io};

/// Why nothing is said of a transcript.
#[derive(Clone, Copy, Debug, PartialEq, Eq, Drop)]
pub(crate) enum Stop {
    /// The words of the command line are not taken.
    Usage,
    /// A file was not there, or a read of it failed.
    ReadFault,
    /// The line that says it was not written.
    WriteFault,
    /// Script and transcript together have more bytes than may be read.
    Limit,
    /// There was no memory.
    NoMemory,
}

impl Stop {
    /// The status that the program ends with.
    fn number(self) -> u8 {
        match self {
            Stop::Usage => 2,
            Stop::ReadFault => 3,
            Stop::WriteFault => 4,
            Stop::Limit => 5,
            Stop::NoMemory => 6,
        }
    }

    /// The line on standard error.
    fn complaint(self) -> &'static str {
        match self {
            Stop::Usage => "cccheck: bad command line",
            Stop::ReadFault => "cccheck: read failed",
            Stop::WriteFault => "cccheck: write failed",
            Stop::Limit => "cccheck: input over the byte limit",
            Stop::NoMemory => "cccheck: out of memory",
        }
    }
}

/// Why a file could not be read.
fn stop_of_read(error: io::Error) -> Stop {
    match error.kind() {
        ErrorKind::OutOfMemory => Stop::NoMemory,
        _ => Stop::ReadFault,
    }
}

/// Why a check came to nothing.
fn stop_of_check(stop: CheckStop) -> Stop {
    match stop {
        CheckStop::Fault => Stop::ReadFault,
        CheckStop::Limit => Stop::Limit,
        CheckStop::NoMemory => Stop::NoMemory,
    }
}

/// The words of the command line, the program's name first.
fn words_given(rt: &HostRuntime) -> Result<Vec<String>, Stop> {
    let args = match env::args(rt) {
        Ok(args) => args,
        Err(error) => {
            return Err(match error.kind() {
                ErrorKind::OutOfMemory => Stop::NoMemory,
                _ => Stop::Usage,
            });
        }
    };
    let mut words = Vec::new(rt.alloc());
    for word in args {
        if words.push(word).is_err() {
            return Err(Stop::NoMemory);
        }
    }
    Ok(words)
}

/// All bytes of the script.
fn script_read(rt: &HostRuntime, path: &str) -> Result<Vec<u8>, Stop> {
    if path != "-" {
        return match fs::read(rt, path) {
            Ok(bytes) => Ok(bytes),
            Err(error) => Err(stop_of_read(error)),
        };
    }
    let mut bytes = Vec::new(rt.alloc());
    match rt.stdin().read_to_end(&mut bytes) {
        Ok(_) => Ok(bytes),
        Err(error) => Err(stop_of_read(error)),
    }
}

/// Where the transcript at a path parts from every lawful one.
fn parting_of(
    rt: &HostRuntime,
    limits: Limits,
    script: &[u8],
    path: &str,
) -> Result<Parting, Stop> {
    if script.len() > limits.bytes() as usize {
        return Err(Stop::Limit);
    }
    let found = if path == "-" {
        let mut source = StdSource::new(rt.stdin());
        find_parting(rt.alloc(), limits, script, &mut source)
    } else {
        let file = match File::open(rt, path) {
            Ok(file) => file,
            Err(error) => return Err(stop_of_read(error)),
        };
        let mut source = StdSource::new(file);
        find_parting(rt.alloc(), limits, script, &mut source)
    };
    match found {
        Ok(parting) => Ok(parting),
        Err(stop) => Err(stop_of_check(stop)),
    }
}

/// Writes where a transcript parts from every lawful one, and why. The status is 0 where it is lawful, and else 1.
fn check(rt: &HostRuntime, limits: Limits, paths: Paths<'_>) -> Result<u8, Stop> {
    let script = script_read(rt, paths.script)?;
    let parting = parting_of(rt, limits, script.as_slice(), paths.transcript)?;
    let Ok(text) = describe(rt.alloc(), &parting, script.as_slice()) else {
        return Err(Stop::NoMemory);
    };
    if rt.stdout().write_all(text.as_slice()).is_err() {
        return Err(Stop::WriteFault);
    }
    Ok(match parting {
        Parting::Lawful => 0,
        _ => 1,
    })
}

/// Writes the help. The status is 0.
fn show_help(rt: &HostRuntime) -> Result<u8, Stop> {
    let text = help(rt.alloc())?;
    if rt.stdout().write_all(text.as_str().as_bytes()).is_err() {
        return Err(Stop::WriteFault);
    }
    Ok(0)
}

/// The status of the whole run.
fn run(rt: &HostRuntime) -> Result<u8, Stop> {
    let given = words_given(rt)?;
    let Ok(words) = given
        .iter()
        .map(|word| word.as_str())
        .collect::<Vec<&str>>(rt.alloc())
    else {
        return Err(Stop::NoMemory);
    };
    let Some(matches) = matches_of(rt.alloc(), words.as_slice())? else {
        return show_help(rt);
    };
    let limits = limits_of(&matches)?;
    let paths = paths_of(&matches)?;
    check(rt, limits, paths)
}

fn main(rt: HostRuntime) -> ExitCode {
    match run(&rt) {
        Ok(status) => ExitCode::from(status),
        Err(stop) => {
            let _ = rt.eprintln(stop.complaint());
            ExitCode::from(stop.number())
        }
    }
}
