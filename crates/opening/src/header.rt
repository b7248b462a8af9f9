// A run up to its header.
ghost use Rattle.std.specs.Prelude.{◌≡◌, IfOk, OnOk};
ghost use Rattle.runs.specs.declared.standing.Standing.TheVariants.{BeforeHeader};
ghost use Rattle.opening.specs.Opening.{opening_rest, Openable, opened, header_in, FirstTaken, EndedEmpty, Opened};

use crate::feeding::feed_whole;
use crate::programs::Program;
use lines::Header;
use runs::{Standing, print_fault};
use std::alloc::{AllocError, Global};
use std::marker::PhantomData;
use stream::LineRun;

// Where a run of the program G stands, from before its header to behind it.
#[derive_where(Clone, Copy)]
pub struct Opening<G> {
    standing: Standing,
    program: PhantomData<G>,
}

impl<G: Program> Opening<G> {
    pub fn new() -> Opening<G>
        ensures { result.standing ≡ BeforeHeader }
    {
        Opening {
            standing: Standing::BeforeHeader,
            program: PhantomData,
        }
    }

    // The header, once it was read.
    pub fn header(&self) -> Option<Header>
        ensures { result ≡ header_in self.now.standing }
    {
        match self.standing {
            Standing::InRun { header, .. } => Some(header),
            Standing::BeforeHeader | Standing::Stopped(_) => None,
        }
    }

    // Takes the first line: prints what is printed of its header, or its fault.
    fn take_first(&mut self, line: &[u8], out: &mut Vec<u8>) -> Result<(), AllocError>
        ensures { OnOk result (FirstTaken G.echo self.new line.now out.old.items out.new.items) }
    {
        let standing = G::read_first(line);
        match standing {
            Standing::InRun { header, .. } => G::print_header(header, out)?,
            Standing::Stopped(fault) => print_fault(fault, out)?,
            Standing::BeforeHeader => {}
        }
        self.standing = standing;
        Ok(())
    }

    // The text has ended before any line: it counts as one empty line.
    pub fn end(&mut self, out: &mut Vec<u8>) -> Result<(), AllocError>
        ensures { OnOk result (EndedEmpty self.old self.new out.old.items out.new.items) }
    {
        self.take_first(&[], out)
    }

    // Takes the first line of a whole text, and answers how many bytes were taken. No line at all is one empty line.
    pub fn open(
        &mut self,
        heap: Global,
        text: &[u8],
        out: &mut Vec<u8>,
    ) -> Result<usize, AllocError>
        ensures { IfOk result (λ used. Opened G.echo G.body self.old self.new text.now out.old.items out.new.items used) }
    {
        let used = feed_whole(heap, self, text, out)?;
        if self.is_paused() {
            return Ok(used);
        }
        self.end(out)?;
        Ok(used)
    }
}

impl<G: Program> LineRun for Opening<G> {
    ghost rest = { opening_rest G.echo G.body };

    ghost sound = { Openable };

    ghost paused = { opened };

    fn take_line(&mut self, line: &[u8], out: &mut Vec<u8>) -> Result<(), AllocError> {
        self.take_first(line, out)?;
        Ok(())
    }

    fn refuses(&self, begun: &[u8]) -> bool {
        begun
            .first()
            .is_some_and(|letter| *letter != b'H' || 14 < begun.len())
    }

    fn is_paused(&self) -> bool {
        !matches!(self.standing, Standing::BeforeHeader)
    }
}
