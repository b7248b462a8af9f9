ghost use Rattle.std.specs.Prelude.{◌≡◌, ◌<◌, [], Ok, IfOk, IfErr, OnOk, OnErr};
ghost use Rattle.std.specs.Io.Buffered.{reader_buffer, reader_capacity, reader_inner};
ghost use Rattle.std.specs.Io.KnownBytes.{Appends};
ghost use Rattle.std.specs.IoError.{error_kind};
ghost use Rattle.piping.specs.Pumping.{PieceFed, PumpedFrom, Pumped};

use anyhow::anyhow;
use std::alloc::{AllocError, Global};
use std::io;
use std::io::{BufRead, BufReader, ErrorKind, Read, Write};
use stream::{LineFeed, LineRun};

// Reads an input in pieces of up to 64 KB.
pub fn in_pieces<I: Read + Drop>(heap: Global, input: I) -> io::Result<BufReader<I>>
    ensures all { IfOk result (λ r. reader_inner r ≡ input) }
    ensures none_waits { IfOk result (λ r. reader_buffer r ≡ []) }
    ensures room { IfOk result (λ r. 0 < reader_capacity r) }
    ensures no_memory { IfErr result (λ e. error_kind e ≡ ErrorKind.OutOfMemory) }
{
    BufReader::with_capacity(heap, 65_536, input)
}

// Writes out what was printed. After a failure it is still there, and some of it may have been written.
pub fn write_out<O: Write>(output: &mut O, printed: &mut Vec<u8>) -> io::Result<()>
    ensures wrote { OnOk result (Appends (O.contents output.old) (O.contents output.new) printed.old.items) }
    ensures none { OnOk result (printed.new.items ≡ []) }
    ensures failed { OnErr result (printed.new.items ≡ printed.old.items) }
{
    output.write_all(printed.as_slice())?;
    printed.clear();
    Ok(())
}

// Feeds the run with the next piece of the input, and answers whether there was one: there is none at its end.
fn feed_piece<R: LineRun, I: BufRead>(
    feed: &mut LineFeed,
    run: &mut R,
    input: &mut I,
    printed: &mut Vec<u8>,
) -> anyhow::Result<bool>
    ensures { IfOk result (λ more. PieceFed R.rest R.sound R.paused run.old run.new feed.old.held.items feed.new.held.items printed.old.items printed.new.items (I.remaining input.old) (I.remaining input.new) more) }
{
    let piece = input.fill_buf()?;
    if piece.is_empty() {
        return Ok(false);
    }
    let used = feed.feed(run, piece, printed)?;
    input.consume(used);
    Ok(true)
}

// Writes out what was printed, and feeds the run with the input behind what the feed holds, until it is paused or the input has
// ended. After a failure the feed and what was printed are still the caller's; what they hold then no clause says.
pub fn pump_from<R: LineRun, I: BufRead, O: Write>(
    input: &mut I,
    feed: &mut LineFeed,
    run: &mut R,
    printed: &mut Vec<u8>,
    output: &mut O,
) -> anyhow::Result<()>
    ensures { OnOk result (PumpedFrom R.rest R.sound R.paused run.old run.new feed.old.held.items feed.new.held.items printed.old.items printed.new.items (I.remaining input.old) (I.remaining input.new) (O.contents output.old) (O.contents output.new)) }
{
    // A count that no input reaches: a loop with no end would need leave to wait.
    for _turn in 0..u64::MAX {
        write_out(output, printed)?;
        if run.is_paused() {
            return Ok(());
        }
        if !feed_piece(feed, run, input, printed)? {
            feed.finish(run, printed)?;
            write_out(output, printed)?;
            return Ok(());
        }
    }
    Err(anyhow!("the input does not end"))
}

// Feeds the run with the input, until it is paused or the input has ended.
pub fn pump<R: LineRun, I: BufRead, O: Write>(
    heap: Global,
    run: &mut R,
    input: &mut I,
    output: &mut O,
) -> anyhow::Result<()>
    ensures { OnOk result (Pumped R.rest R.sound R.paused run.old run.new (I.remaining input.old) (I.remaining input.new) (O.contents output.old) (O.contents output.new)) }
{
    let mut feed = LineFeed::new(heap);
    let mut printed = Vec::new(heap);
    pump_from(input, &mut feed, run, &mut printed, output)?;
    Ok(())
}

// Feeds the run with the input, and then writes out what its end prints; answers what the end does.
pub fn pump_to_end<
    R: LineRun,
    I: BufRead,
    O: Write,
    T,
    E: FnOnce(R, &mut Vec<u8>) -> Result<T, AllocError>,
>(heap: Global, mut run: R, input: &mut I, output: &mut O, end: E) -> anyhow::Result<T>
where
    R: Drop,
    T: Drop,
    E: Drop,
    requires { E.IsAlwaysCallable end }
    ensures { IfOk result (λ answer. (last : R) × (fed : O) × (none printed : _) × (none.now.items ≡ []) × E.post end last none (Ok answer) printed
        × Pumped R.rest R.sound R.paused run last (I.remaining input.old) (I.remaining input.new) (O.contents output.old) (O.contents fed)
        × Appends (O.contents fed) (O.contents output.new) printed.now.items) }
{
    pump(heap, &mut run, input, output)?;
    let mut printed = Vec::new(heap);
    let answer = end(run, &mut printed)?;
    write_out(output, &mut printed)?;
    Ok(answer)
}
