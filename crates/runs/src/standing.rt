// Where the reader of a run stands, and what a line of a run gives.
ghost use Rattle.std.specs.Prelude.{◌≡◌};
ghost use Rattle.runs.specs.Runs.{letter_of, paired};
ghost use Rattle.runs.specs.Standings.{Counted, line_at, refused_by};

use lines::Header;
use text::{LineFault, RunFault};

#[derive(Clone, Copy, Debug, PartialEq, Eq)]
pub enum Standing {
    // before the header
    BeforeHeader,
    // after the header, with the number that the next line has to have
    InRun { header: Header, next: u32 },
    Stopped(RunFault),
}

impl Standing {
    // The number of the line that is read next, counted from 1.
    pub(crate) fn line(&self) -> u32
        requires { Counted self.now }
        ensures { result ≡ line_at self.now }
    {
        match *self {
            Standing::BeforeHeader => 1,
            Standing::InRun { next, .. } => next + 2,
            Standing::Stopped(fault) => fault.line(),
        }
    }

    // The fault of a run whose last line is refused by the end that it was read for.
    pub(crate) fn refused(&self, fault: LineFault) -> RunFault
        requires { Counted self.now }
        ensures { result ≡ refused_by fault self.now }
    {
        match *self {
            Standing::BeforeHeader => RunFault::Line { line: 1, fault },
            Standing::InRun { next, .. } => RunFault::Line {
                line: next + 1,
                fault,
            },
            Standing::Stopped(fault) => fault,
        }
    }
}

// A line that `send` reads. The symbols of a row stand in the place that was handed over.
#[derive(Clone, Copy, Debug, PartialEq, Eq)]
pub enum SendLine {
    Header(Header),
    Row { number: u32 },
}

// A line that `mend` reads. The symbols of a packet stand in the place that was handed over.
#[derive(Clone, Copy, Debug, PartialEq, Eq)]
pub enum MendLine {
    Header(Header),
    Arrived { number: u32 },
    Missed { number: u32 },
}

// The letter of a line; an empty line has none.
pub(crate) fn letter_of(line: &[u8]) -> Option<char>
    ensures { result ≡ letter_of line.now }
{
    line.first().map(|first| char::from(*first))
}

// What was read, with the line's number beside its fault: the pair that `?` turns into the fault of a run.
pub(crate) fn numbered<X>(line: u32, read: Result<X, LineFault>) -> Result<X, (u32, LineFault)>
    ensures { result ≡ paired line read }
{
    read.map_err(|fault| (line, fault))
}
