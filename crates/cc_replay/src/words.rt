//! The words of the command line.
ghost use Rattle.std.specs.Prelude.{◌≡◌, ℕ, ◌≤◌, codes, IfOk, OnOk, Err, false};
ghost use Rattle.clap.specs.Words.{app_of, found_of, one_text, rule_of, subcommand_of, subcommand_rows_of};
ghost use Rattle.cc_replay.specs.Words.{app, check_app, make_app, optional_app, replay_app, bytes_option, count_argument, named_option, natives_option, number_argument, number_option, number_up_to, required_argument, script_argument, scripts_option, seed_argument, texts, GivesRequest, HasNumberUpTo, IsNumber, IsTaken};

use cc_names::Limits;
use clap::builder::ValueParser;
use clap::error::ErrorKind;
use clap::{Arg, ArgAction, ArgMatches, Command};
use std::alloc::{AllocError, Global};

/// What a command line asks for.
#[derive(Clone, Copy, Debug, PartialEq, Eq, Drop)]
pub(crate) enum Request {
    /// `replay`: the answers to the lines of the source, within these limits.
    Replay(Limits),
    /// `make`: the summary of the answers to a made script.
    Make {
        /// The number from which the script is drawn.
        seed: u64,
        /// How many lines of it are drawn, 0 to 1000000.
        count: u32,
    },
    /// `check`: the verdict on the source, a script and then a transcript of it.
    Check {
        /// How many bytes of the source are the script, at most.
        script: u32,
        /// The limits of the run that the transcript is of, and on all bytes that are read.
        limits: Limits,
    },
}

/// Why the words ask for nothing.
#[derive(Clone, Copy, Debug, PartialEq, Eq, Drop)]
pub(crate) enum WordsStop {
    /// The words are not taken.
    Usage,
    /// There was no memory to read them.
    NoMemory,
}

/// The reader of a whole number from 0 to `most`.
fn number_up_to<'a>(most: u32) -> ValueParser<'a>
    ensures { result ≡ number_up_to most }
{
    clap::value_parser!(u32).range(0..=(most as i64))
}

/// An option `--NAME`, which has one value.
fn named_option<'a>(alloc: Global, name: &'a str) -> Arg<'a>
    ensures rule { rule_of result ≡ named_option name.entry.now }
    ensures local { result.global ≡ false }
{
    Arg::new(alloc, name).long(name).action(ArgAction::Set)
}

/// An option `--NAME N`, a whole number from 0 to `most`. Where it is not given, `default` stands for it.
fn number_option<'a>(alloc: Global, name: &'a str, most: u32, default: &'a str) -> Arg<'a>
    ensures rule { rule_of result ≡ number_option name.entry.now most default.entry.now }
    ensures local { result.global ≡ false }
{
    named_option(alloc, name)
        .value_parser(number_up_to(most))
        .default_value(default)
}

/// The limit on natives.
fn natives_option<'a>(alloc: Global) -> Arg<'a>
    ensures rule { rule_of result ≡ natives_option }
    ensures local { result.global ≡ false }
{
    number_option(alloc, "natives", 1_000_000, "1000000")
}

/// The limit on plain objects, weak maps and proxies.
fn scripts_option<'a>(alloc: Global) -> Arg<'a>
    ensures rule { rule_of result ≡ scripts_option }
    ensures local { result.global ≡ false }
{
    number_option(alloc, "scripts", 1_000_000, "1000000")
}

/// The limit on the bytes that are read.
fn bytes_option<'a>(alloc: Global) -> Arg<'a>
    ensures rule { rule_of result ≡ bytes_option }
    ensures local { result.global ≡ false }
{
    number_option(alloc, "bytes", u32::MAX, "4294967295")
}

/// The subcommand `replay`, with its three options.
fn replay_command<'a>(alloc: Global) -> Result<Command<'a>, AllocError>
    ensures { IfOk result (λ c. app_of c ≡ replay_app) }
{
    Command::new(alloc, "replay")
        .arg(natives_option(alloc))?
        .arg(scripts_option(alloc))?
        .arg(bytes_option(alloc))
}

/// An argument that must be given, with one value.
fn required_argument<'a>(alloc: Global, name: &'a str) -> Arg<'a>
    ensures rule { rule_of result ≡ required_argument name.entry.now }
    ensures local { result.global ≡ false }
{
    Arg::new(alloc, name).required(true).action(ArgAction::Set)
}

/// An argument that must be given, a whole number that `reader` takes.
fn number_argument<'a>(alloc: Global, name: &'a str, reader: ValueParser<'a>) -> Arg<'a>
    ensures rule { rule_of result ≡ number_argument name.entry.now reader.entry }
    ensures local { result.global ≡ false }
{
    required_argument(alloc, name).value_parser(reader)
}

/// The number from which a script is drawn.
fn seed_argument<'a>(alloc: Global) -> Arg<'a>
    ensures rule { rule_of result ≡ seed_argument }
    ensures local { result.global ≡ false }
{
    number_argument(alloc, "seed", clap::value_parser!(u64))
}

/// How many lines of it are drawn.
fn count_argument<'a>(alloc: Global) -> Arg<'a>
    ensures rule { rule_of result ≡ count_argument }
    ensures local { result.global ≡ false }
{
    number_argument(alloc, "count", number_up_to(1_000_000))
}

/// The subcommand `make`, with its two arguments.
fn make_command<'a>(alloc: Global) -> Result<Command<'a>, AllocError>
    ensures { IfOk result (λ c. app_of c ≡ make_app) }
{
    Command::new(alloc, "make")
        .arg(seed_argument(alloc))?
        .arg(count_argument(alloc))
}

/// How many bytes of the source are a script.
fn script_argument<'a>(alloc: Global) -> Arg<'a>
    ensures rule { rule_of result ≡ script_argument }
    ensures local { result.global ≡ false }
{
    number_argument(alloc, "script", number_up_to(u32::MAX))
}

/// The subcommand `check`, with its argument and the three options of `replay`.
fn check_command<'a>(alloc: Global) -> Result<Command<'a>, AllocError>
    ensures { IfOk result (λ c. app_of c ≡ check_app) }
{
    Command::new(alloc, "check")
        .arg(script_argument(alloc))?
        .arg(natives_option(alloc))?
        .arg(scripts_option(alloc))?
        .arg(bytes_option(alloc))
}

/// The program `ccreplay`, as far as it names its subcommands.
fn optional_command<'a>(alloc: Global) -> Result<Command<'a>, AllocError>
    ensures { IfOk result (λ c. app_of c ≡ optional_app) }
{
    let replay = replay_command(alloc)?;
    let make = make_command(alloc)?;
    let check = check_command(alloc)?;
    Command::new(alloc, "ccreplay")
        .subcommand(replay)?
        .subcommand(make)?
        .subcommand(check)
}

/// The program `ccreplay`: a subcommand is required, and there is no help.
fn command<'a>(alloc: Global) -> Result<Command<'a>, AllocError>
    ensures { IfOk result (λ c. app_of c ≡ app) }
{
    let command = optional_command(alloc)?;
    Ok(
        command
            .subcommand_required(true)
            .disable_help_flag(true)
            .disable_help_subcommand(true),
    )
}

/// What the words come to, where they are taken.
fn matches_of<'a>(alloc: Global, words: &'a [&'a str]) -> Result<ArgMatches<'a>, WordsStop>
    ensures usage { result ≡ Err WordsStop.Usage → ¬ IsTaken (texts words.entry.now) }
    ensures taken { OnOk result (IsTaken (texts words.entry.now)) }
    ensures named { IfOk result (λ m. subcommand_rows_of m ≡ subcommand_of app (texts words.entry.now)) }
{
    let Ok(command) = command(alloc) else {
        return Err(WordsStop::NoMemory);
    };
    match command.try_get_matches_from(words) {
        Ok(matches) => Ok(matches),
        Err(error) => match error.kind() {
            ErrorKind::OutOfMemory => Err(WordsStop::NoMemory),
            _ => Err(WordsStop::Usage),
        },
    }
}

/// The number that the subcommand has for an option or an argument. There must be one, of 32 bits.
fn number_of(named: &ArgMatches<'_>, name: &str) -> u32
    requires given { HasNumberUpTo 4294967295 (one_text (found_of named.now) name.now) }
    ensures { IsNumber (one_text (found_of named.now) name.now) result }
{
    named.get_one::<u32>(name).unwrap()
}

/// The number that the subcommand has for an argument. There must be one, of 64 bits.
fn wide_number_of(named: &ArgMatches<'_>, name: &str) -> u64
    requires given { HasNumberUpTo 18446744073709551615 (one_text (found_of named.now) name.now) }
    ensures { IsNumber (one_text (found_of named.now) name.now) result }
{
    named.get_one::<u64>(name).unwrap()
}

/// The limits that the subcommand has for the three options. There must be a number in its range for each.
fn limits_of(named: &ArgMatches<'_>) -> Limits
    requires natives { HasNumberUpTo 1000000 (one_text (found_of named.now) (codes "natives")) }
    requires scripts { HasNumberUpTo 1000000 (one_text (found_of named.now) (codes "scripts")) }
    requires bytes { HasNumberUpTo 4294967295 (one_text (found_of named.now) (codes "bytes")) }
    ensures natives { IsNumber (one_text (found_of named.now) (codes "natives")) result.natives }
    ensures scripts { IsNumber (one_text (found_of named.now) (codes "scripts")) result.scripts }
    ensures bytes { IsNumber (one_text (found_of named.now) (codes "bytes")) result.bytes }
{
    let natives = number_of(named, "natives");
    let scripts = number_of(named, "scripts");
    let bytes = number_of(named, "bytes");
    Limits::new(natives, scripts, bytes)
}

/// What the words ask for. The program's name is the first word.
///
/// `Usage` where the words are not taken, as in a wish for help. `NoMemory` only where memory is refused.
pub(crate) fn request_of<'a>(alloc: Global, words: &'a [&'a str]) -> Result<Request, WordsStop>
    ensures usage { result ≡ Err WordsStop.Usage → ¬ IsTaken (texts words.entry.now) }
    ensures taken { OnOk result (IsTaken (texts words.entry.now)) }
    ensures request { IfOk result (λ request. GivesRequest (texts words.entry.now) request) }
    ensures only { IfOk result (λ request. (other : Request) → GivesRequest (texts words.entry.now) other → other ≡ request) }
{
    let matches = matches_of(alloc, words)?;
    if let Some(make) = matches.subcommand_matches("make") {
        let seed = wide_number_of(make, "seed");
        let count = number_of(make, "count");
        return Ok(Request::Make { seed, count });
    }
    if let Some(check) = matches.subcommand_matches("check") {
        let script = number_of(check, "script");
        let limits = limits_of(check);
        return Ok(Request::Check { script, limits });
    }
    let replay = matches.subcommand_matches("replay").unwrap();
    Ok(Request::Replay(limits_of(replay)))
}
