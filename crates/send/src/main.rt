// `send`: reads a list of rows as text, and prints its packets as text.
#![tactic(auto)]

use piping::{pipe, run_filter};
use send_filter::Sending;
use std::process::ExitCode;

const USAGE: &str = "usage: send [FILE]

Reads a list of rows from FILE, or from standard input, and prints the packet of each row and the tail.

reads   HD   3   4   2        header: kind (B bytes, D digits), burst length L, symbols of a row k, parity symbols r
        R       0 1 2 3 4     row: its number, k symbols (bytes take 4 columns each, digits 2)
prints  HD   3   4   2        the header again
        A       0 1 2 3 4 0 0 slot: its number, the row, r parity symbols; T tail slots follow the last row
        X       3   6   2     fault: line, refusal, position; then the program ends with status 1
";

fn main(rt: HostRuntime) -> anyhow::Result<ExitCode> {
    run_filter(&rt, "send", USAGE, |input| {
        pipe::<Sending, _, _>(rt.alloc(), input, &mut rt.stdout())
    })
}
