// A text that comes in pieces of any length, cut into lines at byte 10.
ghost use Rattle.std.specs.Prelude.{◌≡◌, ◌<◌, ◌≤◌, true, false, [], ◌∷◌, ◌++◌, length, IfOk, IfSome, MatchOption, vec_len, OnOk};
ghost use Rattle.stream.specs.Lines.{line_length, Unended};
ghost use Rattle.stream.specs.Running.{Took, Held, Fed, Finished};

use crate::run::LineRun;
use memchr::memchr;
use std::alloc::{AllocError, Global};

// How many bytes stand before the first byte 10, if there is one.
pub fn line_len(bytes: &[u8]) -> Option<usize>
    ensures value { result ≡ line_length bytes.now }
    ensures within { IfSome result (λ len. len < length bytes.now) }
{
    memchr(b'\n', bytes)
}

// The first line, without the byte 10 that ends it, and what follows; none where no line ends.
pub fn split_line(text: &[u8]) -> Option<(&[u8], &[u8])>
    ensures { MatchOption result (Unended text.now) (λ parts. Unended parts.0.now × (text.now ≡ parts.0.now ++ (10 ∷ parts.1.now))) }
{
    let len = line_len(text)?;
    Some((&text[..len], &text[len + 1..]))
}

// What has come of a line that has not ended yet.
#[derive(Drop)]
pub struct LineFeed {
    held: Vec<u8>,
}

impl LineFeed {
    pub fn new(heap: Global) -> LineFeed
        ensures { result.held.items ≡ [] }
    {
        LineFeed {
            held: Vec::new(heap),
        }
    }

    // Hands on the line that ends with this piece.
    fn end_line<R: LineRun>(
        &mut self,
        run: &mut R,
        piece: &[u8],
        out: &mut Vec<u8>,
    ) -> Result<(), AllocError>
        ensures held { OnOk result (self.new.held.items ≡ []) }
        ensures took { OnOk result (Took R.LineRun.rest R.LineRun.sound R.LineRun.paused run.old run.new (self.old.held.items ++ piece.now) out.old.items out.new.items) }
    {
        if self.held.is_empty() {
            run.take_line(piece, out)?;
        } else {
            self.held.extend_from_slice(piece)?;
            run.take_line(self.held.as_slice(), out)?;
            self.held.clear();
        }
        Ok(())
    }

    // Holds a piece of a line that has not ended, or hands it on where the line is refused already.
    fn hold<R: LineRun>(
        &mut self,
        run: &mut R,
        piece: &[u8],
        out: &mut Vec<u8>,
    ) -> Result<(), AllocError>
        ensures { OnOk result (Held R.LineRun.rest R.LineRun.sound R.LineRun.paused run.old run.new self.old.held.items self.new.held.items piece.now out.old.items out.new.items) }
    {
        self.held.extend_from_slice(piece)?;
        if !self.held.is_empty() && run.refuses(self.held.as_slice()) {
            run.take_line(self.held.as_slice(), out)?;
            self.held.clear();
        }
        Ok(())
    }

    // Hands the lines of the next piece of the text to the run, until it is paused, and answers how many bytes were taken.
    pub fn feed<R: LineRun>(
        &mut self,
        run: &mut R,
        bytes: &[u8],
        out: &mut Vec<u8>,
    ) -> Result<usize, AllocError>
        ensures { IfOk result (λ used. Fed R.LineRun.rest R.LineRun.sound R.LineRun.paused run.old run.new self.old.held.items self.new.held.items bytes.now out.old.items out.new.items used) }
    {
        let mut rest = bytes;
        while !run.is_paused() {
            let Some((line, more)) = split_line(rest) else {
                self.hold(run, rest, out)?;
                return Ok(bytes.len());
            };
            self.end_line(run, line, out)?;
            rest = more;
        }
        Ok(bytes.len() - rest.len())
    }

    // The text has ended: hands on what is held of a last line.
    pub fn finish<R: LineRun>(&mut self, run: &mut R, out: &mut Vec<u8>) -> Result<(), AllocError>
        ensures { OnOk result (Finished R.LineRun.rest R.LineRun.sound R.LineRun.paused run.old run.new self.old.held.items self.new.held.items out.old.items out.new.items) }
    {
        let last = self.held.as_slice();
        if !last.is_empty() {
            run.take_line(last, out)?;
            self.held.clear();
        }
        Ok(())
    }
}
