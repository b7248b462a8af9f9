// `mend`: reads packets as text, with those that were missed, and prints the rows as text.
#![tactic(auto)]

use mend_filter::Mending;
use piping::{pipe, run_filter};
use std::process::ExitCode;

const USAGE: &str = "usage: mend [FILE]

Reads what was heard of a run from FILE, or from standard input, and prints each row when it falls due.

reads   HD   3   4   2        header: kind (B bytes, D digits), burst length L, symbols of a row k, parity symbols r
        A       0 1 2 3 4 0 0 a slot that arrived: its number, the row, r parity symbols
        M       1             a slot that was missed: its number
prints  W       0 1 2 3 4     a row that arrived whole: its number, k symbols
        N       1 5 6 7 8     a row of which symbols were mended
        L       2 ? ? 1 2     a row of which symbols are lost, each as ?
        E       9       2       1       0   end: slots taken, rows whole, mended, lost
        X       3   6   2     fault: line, refusal, position; then the program ends with status 1
";

fn main(rt: HostRuntime) -> anyhow::Result<ExitCode> {
    run_filter(&rt, "mend", USAGE, |input| {
        pipe::<Mending, _, _>(rt.alloc(), input, &mut rt.stdout())
    })
}
