// What is wrong with a field, a line or a run: each stands whole inside the next.
ghost use Rattle.std.specs.Prelude.{◌≡◌, length};
ghost use Rattle.text.specs.Faults.{line_number, line_position, run_line, run_number, run_position};
ghost use Rattle.lines.specs.Lines.{ended, fault_line};
ghost use Rattle.lines.specs.Writing.{Wrote, fault_refused};
ghost use Rattle.text.specs.declared.fault.LineFault.TheVariants as line;
ghost use Rattle.text.specs.declared.fault.RunFault.TheVariants as run;

use code::{PutRefusal, SheetRefusal, SlotRefusal, TailRefusal};
use lines::{FieldFault, WriteRefusal, write_refusal};
use thiserror::Error;

// Why a line is not read, or not taken by the end that it is read for.
#[derive(Clone, Copy, Debug, PartialEq, Eq, Error)]
pub enum LineFault {
    // the line is empty, or its letter is not one that the reader takes now
    #[error("no line begins so here")]
    Letter,
    #[error("the line has not the length for its letter")]
    Length,
    #[error("the kind letter is neither B nor D")]
    Kind,
    #[error(transparent)]
    Field(FieldFault),
    #[error("the number is not the next one")]
    Order,
    #[error(transparent)]
    Sheet(SheetRefusal),
    #[error(transparent)]
    Put(PutRefusal),
    #[error(transparent)]
    Slot(SlotRefusal),
}

// Why a run ends: at a line, or in the tail, which stands on the line after the last.
#[derive(Clone, Copy, Debug, PartialEq, Eq, Error)]
pub enum RunFault {
    #[error("line {line}: {fault}")]
    Line { line: u32, fault: LineFault },
    #[error("line {line}, the tail: {refusal}")]
    Tail { line: u32, refusal: TailRefusal },
}

// The conversions are written out, so that a clause knows which fault each makes.
impl From<FieldFault> for LineFault {
    ghost from_gives = { λ e r. r ≡ line.Field e };

    fn from(field: FieldFault) -> LineFault {
        LineFault::Field(field)
    }
}

impl From<SheetRefusal> for LineFault {
    ghost from_gives = { λ e r. r ≡ line.Sheet e };

    fn from(refusal: SheetRefusal) -> LineFault {
        LineFault::Sheet(refusal)
    }
}

impl From<PutRefusal> for LineFault {
    ghost from_gives = { λ e r. r ≡ line.Put e };

    fn from(refusal: PutRefusal) -> LineFault {
        LineFault::Put(refusal)
    }
}

impl From<SlotRefusal> for LineFault {
    ghost from_gives = { λ e r. r ≡ line.Slot e };

    fn from(refusal: SlotRefusal) -> LineFault {
        LineFault::Slot(refusal)
    }
}

// A line's fault with the line's number.
impl From<(u32, LineFault)> for RunFault {
    ghost from_gives = { λ e r. r ≡ run.Line e.0 e.1 };

    fn from(numbered: (u32, LineFault)) -> RunFault {
        let (line, fault) = numbered;
        RunFault::Line { line, fault }
    }
}

// A refusal in the tail with the number of the line after the last.
impl From<(u32, TailRefusal)> for RunFault {
    ghost from_gives = { λ e r. r ≡ run.Tail e.0 e.1 };

    fn from(numbered: (u32, TailRefusal)) -> RunFault {
        let (line, refusal) = numbered;
        RunFault::Tail { line, refusal }
    }
}

impl LineFault {
    // The refusal's number. By cases, as in a field's fault.
    pub fn number(self) -> u32
        ensures { result ≡ line_number self }
    {
        match self {
            LineFault::Letter => 1,
            LineFault::Length => 2,
            LineFault::Kind => 3,
            LineFault::Field(fault) => fault.number(),
            LineFault::Order => 6,
            LineFault::Sheet(refusal) => refusal.number(),
            LineFault::Put(refusal) => refusal.number(),
            LineFault::Slot(refusal) => refusal.number(),
        }
    }

    // The byte at which the line is wrong, counted from 1, or 0 for the whole line.
    pub fn position(self) -> u32
        ensures { result ≡ line_position self }
    {
        match self {
            LineFault::Letter => 1,
            LineFault::Kind => 2,
            LineFault::Field(fault) => fault.position(),
            LineFault::Order => 2,
            LineFault::Length | LineFault::Sheet(_) | LineFault::Put(_) | LineFault::Slot(_) => 0,
        }
    }
}

impl RunFault {
    // The number of the line at which the run ends, counted from 1.
    pub fn line(self) -> u32
        ensures { result ≡ run_line self }
    {
        match self {
            RunFault::Line { line, .. } | RunFault::Tail { line, .. } => line,
        }
    }

    // The refusal's number.
    pub fn number(self) -> u32
        ensures { result ≡ run_number self }
    {
        match self {
            RunFault::Line { fault, .. } => fault.number(),
            RunFault::Tail { refusal, .. } => refusal.number(),
        }
    }

    pub fn position(self) -> u32
        ensures { result ≡ run_position self }
    {
        match self {
            RunFault::Line { fault, .. } => fault.position(),
            RunFault::Tail { .. } => 0,
        }
    }
}

// The X line of a run's fault.
pub fn write_fault(place: &mut [u8], fault: RunFault) -> Result<(), WriteRefusal>
    ensures { Wrote (fault_refused (run_line fault) (run_number fault) (run_position fault) (length place.old)) (ended (fault_line (run_line fault) (run_number fault) (run_position fault))) place.old result place.new }
{
    write_refusal(place, fault.line(), fault.number(), fault.position())
}
