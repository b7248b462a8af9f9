// A text that goes to a run whole.
ghost use Rattle.std.specs.Prelude.{IfOk};
ghost use Rattle.opening.specs.Feeding.{FedWhole};

use std::alloc::{AllocError, Global};
use stream::{LineFeed, LineRun};

// Hands all lines of a text to a run, until it is paused, and answers how many bytes were taken.
pub fn feed_whole<R: LineRun>(
    heap: Global,
    run: &mut R,
    text: &[u8],
    out: &mut Vec<u8>,
) -> Result<usize, AllocError>
    ensures { IfOk result (λ used. FedWhole R.rest R.sound R.paused run.old run.new text.now out.old.items out.new.items used) }
{
    let mut feed = LineFeed::new(heap);
    let used = feed.feed(run, text, out)?;
    if run.is_paused() {
        return Ok(used);
    }
    feed.finish(run, out)?;
    Ok(used)
}
