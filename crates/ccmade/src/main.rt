//! `ccmade SEED COUNT` writes the script that `ccreplay make SEED COUNT` answers to standard output.
#![tactic(auto)]

ghost use Rattle.std.specs.Prelude.{◌≤◌, IfSome};

use cc_made::MadeSource;
use cc_outside::Source;
use std::env;
use std::io::{self, Write};
use std::process::ExitCode;

/// The seed and the count that the words give: a whole number of 64 bits, and one of at most 1000000.
fn numbers(rt: &HostRuntime) -> Option<(u64, u32)>
    ensures { IfSome result (λ n. n.1 ≤ 1000000) }
{
    let mut words = env::args(rt).ok()?;
    let _program = words.next()?;
    let seed = words.next()?.as_str().parse::<u64>().ok()?;
    let count = words.next()?.as_str().parse::<u32>().ok()?;
    if words.next().is_some() || count > 1_000_000 {
        return None;
    }
    Some((seed, count))
}

/// Writes the made script of `count` lines, and twenty more, to the output.
fn write_script<W: Write>(seed: u64, count: u32, output: &mut W) -> io::Result<()>
    requires { count ≤ 1000000 }
{
    let mut source = MadeSource::new(seed, count);
    let mut buffer = [0; 4096];
    'pieces: while let Ok(count) = source.read(&mut buffer) {
        if count == 0 {
            return output.flush();
        }
        output.write_all(&buffer[..count])?;
    }
    Ok(())
}

fn main(rt: HostRuntime) -> ExitCode {
    let Some((seed, count)) = numbers(&rt) else {
        let _ = rt.eprintln("ccmade: bad command line");
        return ExitCode::from(2);
    };
    if write_script(seed, count, &mut rt.stdout()).is_err() {
        let _ = rt.eprintln("ccmade: write failed");
        return ExitCode::from(4);
    }
    ExitCode::from(0)
}
