// What the lines do to the reader of a run.
ghost use Rattle.std.specs.Prelude.{◌≡◌, IfOk};
ghost use Rattle.runs.specs.Runs.{answer_of, standing_of};
ghost use Rattle.runs.specs.Standings.{Counted, line_at, refused_by};
ghost use Rattle.runs.specs.declared.standing.Standing.TheVariants.{Stopped};

use super::RunReader;
use crate::standing::Standing;
use text::{LineFault, RunFault};

impl<L> RunReader<L> {
    // The number of the line that is read next, counted from 1.
    pub fn line(&self) -> u32
        ensures { result ≡ line_at self.now.standing }
    {
        self.standing.line()
    }

    // Stops the run at the line that was read last, since the end that it was read for refuses it.
    pub fn refuse(&mut self, fault: LineFault) -> RunFault
        ensures answer { result ≡ refused_by fault self.old.standing }
        ensures standing { self.new.standing ≡ Stopped (refused_by fault self.old.standing) }
    {
        let fault = self.standing.refused(fault);
        self.standing = Standing::Stopped(fault);
        fault
    }

    // Goes to where a line has led, or stops at its fault.
    pub(super) fn go_on(&mut self, given: Result<(L, Standing), RunFault>) -> Result<L, RunFault>
        requires { IfOk given (λ to. Counted to.1) }
        ensures answer { result ≡ answer_of given }
        ensures standing { self.new.standing ≡ standing_of given }
    {
        match given {
            Ok((line, standing)) => {
                self.standing = standing;
                Ok(line)
            }
            Err(stop) => {
                self.standing = Standing::Stopped(stop);
                Err(stop)
            }
        }
    }
}
