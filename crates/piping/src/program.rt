// What the programs have in common: which input they read, and what they say of themselves.
ghost use Rattle.std.specs.Prelude.{◌≡◌, ◌⊎◌, Ok, IfOk};

use anyhow::bail;
use either::Either;
use std::fs::File;
use std::io::Stdin;
use std::process::ExitCode;
use std::{env, fs};

// Runs a filter over the file that the one argument names, or over standard input where there is none; with --help it shows how the
// program is used instead.
pub fn run_filter<F: FnOnce(Either<File, Stdin>) -> anyhow::Result<ExitCode>>(
    rt: &HostRuntime,
    name: &str,
    usage: &str,
    filter: F,
) -> anyhow::Result<ExitCode>
    requires { F.IsAlwaysCallable filter }
    ensures { IfOk result (λ code. (code ≡ ExitCode.SUCCESS) ⊎ ((input : _) × F.post filter input (Ok code))) }
{
    let mut arguments = env::args(rt)?.skip(1);
    let Some(argument) = arguments.next() else {
        return filter(Either::Right(rt.stdin()));
    };
    if arguments.next().is_some() {
        bail!("{name}: more than one argument; try --help");
    }
    if argument.as_str() == "--help" {
        print!(rt; "{usage}")?;
        return Ok(ExitCode::SUCCESS);
    }
    filter(Either::Left(fs::open(rt, argument.as_str())?))
}
