//! `ccreplay` drives the cycle collector from a script of commands on standard input, one reply a command on
//! standard output; or from a made script, with a summary of the replies on standard output; or it says whether a script
//! and a transcript of it on standard input are lawful.
//!
//! All of it is `cc_replay::run`, whose contract says what is written. This file hands it the words of the command
//! line and the standard streams, says on standard error why a run was not done, and ends with the run's status.
#![tactic(auto)]

use cc_outside::{StdSink, StdSource};
use cc_replay::{Status, run};
use std::env;
use std::io::ErrorKind;
use std::process::ExitCode;

/// The words of the command line, the program's name first.
///
/// Words that are not UTF-8, or not to be had at all, are those of a faulty command line.
fn words(rt: &HostRuntime) -> Result<Vec<String>, Status> {
    let args = match env::args(rt) {
        Ok(args) => args,
        Err(error) => {
            return Err(match error.kind() {
                ErrorKind::OutOfMemory => Status::NoMemory,
                _ => Status::Usage,
            });
        }
    };
    let mut words = Vec::new(rt.alloc());
    for word in args {
        if words.push(word).is_err() {
            return Err(Status::NoMemory);
        }
    }
    Ok(words)
}

/// Does what the words say: replays the script of standard input, or a made one, to standard output, or checks a
/// transcript of standard input.
fn replay(rt: &HostRuntime, words: &Vec<String>) -> Status {
    let Ok(words) = words
        .iter()
        .map(|word| word.as_str())
        .collect::<Vec<&str>>(rt.alloc())
    else {
        return Status::NoMemory;
    };
    let mut source = StdSource::new(rt.stdin());
    let mut sink = StdSink::new(rt.stdout());
    run(rt.alloc(), words.as_slice(), &mut source, &mut sink)
}

/// The line on standard error for a run that was not done.
fn complaint(status: Status) -> Option<&'static str> {
    match status {
        Status::Done | Status::Unlawful => None,
        Status::Usage => Some("ccreplay: bad command line"),
        Status::ReadFault => Some("ccreplay: read failed"),
        Status::WriteFault => Some("ccreplay: write failed"),
        Status::Limit => Some("ccreplay: input over the byte limit"),
        Status::NoMemory => Some("ccreplay: out of memory"),
    }
}

fn main(rt: HostRuntime) -> ExitCode {
    let status = match words(&rt) {
        Ok(words) => replay(&rt, &words),
        Err(status) => status,
    };
    if let Some(line) = complaint(status) {
        let _ = rt.eprintln(line);
    }
    ExitCode::from(status.number())
}
