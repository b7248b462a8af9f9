// What the reader of `mend` reads: H, and then A and M lines.
ghost use Rattle.std.specs.Prelude.{◌≡◌, length, IfOk};
ghost use Rattle.runs.specs.Runs.{answer_of, standing_of, mend_read, mend_place, MendRepeats};
ghost use Rattle.runs.specs.Standings.{Counted};

use super::RunReader;
use crate::standing::{MendLine, Standing, letter_of, numbered};
use kinds::Printed;
use text::{LineFault, RunFault, read_header, read_missed, read_packet};

impl RunReader<MendLine> {
    // What a line gives where the reader stands, and where it leads.
    #[tactic(auto, using(crate::proofs::Numbered::told_err))]
    fn take<P: Printed>(
        &self,
        line: &[u8],
        packet: &mut [P],
    ) -> Result<(MendLine, Standing), RunFault>
        ensures given { result ≡ mend_read P.form self.now.standing (length packet.old) line.now }
        ensures counted { IfOk result (λ to. Counted to.1) }
        ensures place { packet.new ≡ mend_place P.form self.now.standing line.now packet.old }
    {
        let at = self.standing.line();
        match (self.standing, letter_of(line)) {
            (Standing::BeforeHeader, Some('H')) => {
                let header = numbered(at, read_header(line))?;
                Ok((
                    MendLine::Header(header),
                    Standing::InRun { header, next: 0 },
                ))
            }
            (
                Standing::InRun {
                    header,
                    next: number,
                },
                Some('A'),
            ) => {
                numbered(at, read_packet(line, header.sheet, number, packet))?;
                let next = number + 1;
                Ok((
                    MendLine::Arrived { number },
                    Standing::InRun { header, next },
                ))
            }
            (
                Standing::InRun {
                    header,
                    next: number,
                },
                Some('M'),
            ) => {
                numbered(at, read_missed(line, number))?;
                let next = number + 1;
                Ok((
                    MendLine::Missed { number },
                    Standing::InRun { header, next },
                ))
            }
            (Standing::Stopped(fault), _) => Err(fault),
            _ => Err(RunFault::Line {
                line: at,
                fault: LineFault::Letter,
            }),
        }
    }

    // What the next line gives. Once stopped by a fault, the reader repeats it.
    pub fn read<P: Printed>(&mut self, line: &[u8], packet: &mut [P]) -> Result<MendLine, RunFault>
        ensures answer { result ≡ answer_of (mend_read P.form self.old.standing (length packet.old) line.now) }
        ensures standing { self.new.standing ≡ standing_of (mend_read P.form self.old.standing (length packet.old) line.now) }
        ensures place { packet.new ≡ mend_place P.form self.old.standing line.now packet.old }
        ensures repeats { MendRepeats P.form }
    {
        let given = self.take(line, packet);
        self.go_on(given)
    }
}
