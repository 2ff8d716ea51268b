//! The words of the command line.

use crate::Stop;
use cc_names::Limits;
use clap::error::ErrorKind;
use clap::{Arg, ArgAction, ArgMatches, Command};
use std::alloc::{AllocError, Global};

/// A script and a transcript, each a path or `-`. At most one of them is `-`.
#[derive(Clone, Copy)]
pub(crate) struct Paths<'a> {
    pub(crate) script: &'a str,
    pub(crate) transcript: &'a str,
}

/// An argument that must be given.
fn required_argument<'a>(alloc: Global, name: &'a str, help: &'a str) -> Arg<'a> {
    Arg::new(alloc, name)
        .required(true)
        .action(ArgAction::Set)
        .help(help)
}

/// An option `--NAME N`, a whole number from 0 to `most`. Where it is not given, `default` stands for it.
fn number_option<'a>(
    alloc: Global,
    name: &'a str,
    most: u32,
    default: &'a str,
    help: &'a str,
) -> Arg<'a> {
    Arg::new(alloc, name)
        .long(name)
        .help(help)
        .action(ArgAction::Set)
        .value_parser(clap::value_parser!(u32).range(0..=(most as i64)))
        .default_value(default)
}

/// The program `cccheck`.
fn command<'a>(alloc: Global) -> Result<Command<'a>, AllocError> {
    Command::new(alloc, "cccheck")
        .about("Says where a transcript parts from every lawful one of its script, and why")
        .arg(required_argument(
            alloc,
            "script",
            "The command script: a file, or - for standard input",
        ))?
        .arg(required_argument(
            alloc,
            "transcript",
            "What a collector answered to it: a file, or - for standard input",
        ))?
        .arg(number_option(
            alloc,
            "natives",
            Limits::MOST,
            "1000000",
            "How many natives may be made",
        ))?
        .arg(number_option(
            alloc,
            "scripts",
            Limits::MOST,
            "1000000",
            "How many plain objects, weak maps and proxies may be made",
        ))?
        .arg(number_option(
            alloc,
            "bytes",
            u32::MAX,
            "4294967295",
            "How many bytes script and transcript may have together",
        ))
}

/// The number that an option has.
fn number_of(matches: &ArgMatches<'_>, name: &str) -> Result<u32, Stop> {
    match matches.get_one::<u32>(name) {
        Some(number) => Ok(number),
        None => Err(Stop::Usage),
    }
}

/// The limits that the options have.
pub(crate) fn limits_of(matches: &ArgMatches<'_>) -> Result<Limits, Stop> {
    let natives = number_of(matches, "natives")?;
    let scripts = number_of(matches, "scripts")?;
    let bytes = number_of(matches, "bytes")?;
    Ok(Limits::new(natives.min(Limits::MOST), scripts.min(Limits::MOST), bytes))
}

/// The paths that the words give.
pub(crate) fn paths_of<'a>(matches: &ArgMatches<'a>) -> Result<Paths<'a>, Stop> {
    let (Some(script), Some(transcript)) = (
        matches.get_str("script"),
        matches.get_str("transcript"),
    ) else {
        return Err(Stop::Usage);
    };
    if script == "-" && transcript == "-" {
        return Err(Stop::Usage);
    }
    Ok(Paths { script, transcript })
}

/// What the words come to, where they are taken; none where they ask for help. The program's name is the first word.
pub(crate) fn matches_of<'a>(
    alloc: Global,
    words: &'a [&'a str],
) -> Result<Option<ArgMatches<'a>>, Stop> {
    let Ok(command) = command(alloc) else {
        return Err(Stop::NoMemory);
    };
    match command.try_get_matches_from(words) {
        Ok(matches) => Ok(Some(matches)),
        Err(error) => match error.kind() {
            ErrorKind::OutOfMemory => Err(Stop::NoMemory),
            ErrorKind::DisplayHelp => Ok(None),
            _ => Err(Stop::Usage),
        },
    }
}

/// The help of the program.
pub(crate) fn help(alloc: Global) -> Result<String, Stop> {
    let Ok(mut command) = command(alloc) else {
        return Err(Stop::NoMemory);
    };
    match command.render_help() {
        Ok(text) => Ok(text),
        Err(_) => Err(Stop::NoMemory),
    }
}
