// The reader of a run: an H line, and then the lines of `send` or of `mend`.
ghost use Rattle.std.specs.Prelude.{◌≡◌, ⊤};
ghost use Rattle.runs.specs.Standings.{Counted};
ghost use Rattle.runs.specs.declared.standing.Standing.TheVariants.{BeforeHeader, InRun};

use crate::standing::{MendLine, SendLine, Standing};
use lines::Header;
use std::alloc::AllocError;
use std::marker::PhantomData;

mod mend;
mod send;
mod turns;

// A reader of lines that give an L.
pub struct RunReader<L> {
    standing: Standing,
    gives: PhantomData<L>,
    ghost counted: { Counted standing },
}

// By hand: a generic struct with a ghost field takes no derive of these.
impl<L> Copy for RunReader<L> {}

impl<L> Clone for RunReader<L> {
    ghost is_clone = { λ x y. y ≡ x };

    ghost is_infallible = { λ _. ⊤ };

    fn clone(&self) -> Result<RunReader<L>, AllocError> {
        Ok(*self)
    }
}

pub type SendReader = RunReader<SendLine>;

pub type MendReader = RunReader<MendLine>;

impl<L> RunReader<L> {
    pub fn new() -> RunReader<L>
        ensures { result.standing ≡ BeforeHeader }
    {
        RunReader {
            standing: Standing::BeforeHeader,
            gives: PhantomData,
        }
    }

    // A reader that has read this header.
    pub fn after(header: Header) -> RunReader<L>
        ensures { result.standing ≡ InRun header 0 }
    {
        RunReader {
            standing: Standing::InRun { header, next: 0 },
            gives: PhantomData,
        }
    }

    pub fn standing(&self) -> Standing
        ensures { result ≡ self.now.standing }
    {
        self.standing
    }
}
