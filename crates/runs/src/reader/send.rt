// What the reader of `send` reads: H, and then R lines.
ghost use Rattle.std.specs.Prelude.{◌≡◌, length, IfOk};
ghost use Rattle.runs.specs.Runs.{answer_of, standing_of, send_read, send_place, SendRepeats};
ghost use Rattle.runs.specs.Standings.{Counted};

use super::RunReader;
use crate::standing::{SendLine, Standing, letter_of, numbered};
use kinds::Printed;
use text::{LineFault, RunFault, read_header, read_row};

impl RunReader<SendLine> {
    // What a line gives where the reader stands, and where it leads.
    #[tactic(auto, using(crate::proofs::Numbered::told_err))]
    fn take<P: Printed>(&self, line: &[u8], row: &mut [P]) -> Result<(SendLine, Standing), RunFault>
        ensures given { result ≡ send_read P.form self.now.standing (length row.old) line.now }
        ensures counted { IfOk result (λ to. Counted to.1) }
        ensures place { row.new ≡ send_place P.form self.now.standing line.now row.old }
    {
        let at = self.standing.line();
        match (self.standing, letter_of(line)) {
            (Standing::BeforeHeader, Some('H')) => {
                let header = numbered(at, read_header(line))?;
                Ok((
                    SendLine::Header(header),
                    Standing::InRun { header, next: 0 },
                ))
            }
            (
                Standing::InRun {
                    header,
                    next: number,
                },
                Some('R'),
            ) => {
                numbered(at, read_row(line, header.sheet, number, row))?;
                let next = number + 1;
                Ok((SendLine::Row { number }, Standing::InRun { header, next }))
            }
            (Standing::Stopped(fault), _) => Err(fault),
            _ => Err(RunFault::Line {
                line: at,
                fault: LineFault::Letter,
            }),
        }
    }

    // What the next line gives. Once stopped by a fault, the reader repeats it.
    pub fn read<P: Printed>(&mut self, line: &[u8], row: &mut [P]) -> Result<SendLine, RunFault>
        ensures answer { result ≡ answer_of (send_read P.form self.old.standing (length row.old) line.now) }
        ensures standing { self.new.standing ≡ standing_of (send_read P.form self.old.standing (length row.old) line.now) }
        ensures place { row.new ≡ send_place P.form self.old.standing line.now row.old }
        ensures repeats { SendRepeats P.form }
    {
        let given = self.take(line, row);
        self.go_on(given)
    }
}
