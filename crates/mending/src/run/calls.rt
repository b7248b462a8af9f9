ghost use Rattle.std.specs.Prelude.{length, IfOk, Some, None, OnOk};
ghost use Rattle.mending.specs.Running.{rest_of, Sound, stopped, NewRun, AnswerPrinted, SlotTaken, Ended};

use super::MendRun;
use crate::print::{print_due, print_tally};
use code::{Mark, SlotRefusal};
use kinds::Printed;
use lines::Header;
use receive::{Due, Receiver};
use runs::{MendLine, MendReader, Standing, print_fault};
use std::alloc::AllocError;
use stream::LineRun;
use text::{LineFault, RunFault};

impl<'w, P: Printed> MendRun<'w, P> {
    // A run on the sheet of this header, over a window and places of any length.
    pub fn new(
        header: Header,
        window: &'w mut [P],
        packet: Vec<P>,
        row: Vec<P>,
        marks: Vec<Mark>,
    ) -> MendRun<'w, P>
        ensures { NewRun P.kind P.form header.sheet (length window.old) (length packet.items) (length row.items) (length marks.items) result }
    {
        MendRun {
            sheet: header.sheet,
            reader: MendReader::after(header),
            receiver: Receiver::new(header.sheet, window),
            packet,
            row,
            marks,
        }
    }

    // The lines have ended: prints the E line, unless a fault has stopped the run. Answers the fault that stopped it, if one did.
    pub fn end(self, out: &mut Vec<u8>) -> Result<Option<RunFault>, AllocError>
        ensures { IfOk result (λ fault. Ended P.kind P.form self.entry out.old.items out.new.items fault) }
    {
        match self.reader.standing() {
            Standing::InRun { .. } => {
                print_tally(self.receiver.tally(), out)?;
                Ok(None)
            }
            Standing::Stopped(fault) => Ok(Some(fault)),
            Standing::BeforeHeader => Ok(None),
        }
    }

    // Prints the row that fell due, or stops the run at the refusal.
    fn print_answer(
        &mut self,
        answer: Result<Option<Due>, SlotRefusal>,
        out: &mut Vec<u8>,
    ) -> Result<(), AllocError>
        ensures { OnOk result (AnswerPrinted P.form self.old self.new out.old.items out.new.items answer) }
    {
        match answer {
            Ok(None) => {}
            Ok(Some(due)) => print_due(
                self.sheet,
                due.row,
                self.row.as_slice(),
                self.marks.as_slice(),
                out,
            )?,
            Err(refusal) => {
                let fault = self.reader.refuse(LineFault::Slot(refusal));
                print_fault(fault, out)?;
            }
        }
        Ok(())
    }

    // Takes the slot whose packet was read, and prints the row that falls due with it.
    fn take_arrived(&mut self, out: &mut Vec<u8>) -> Result<(), AllocError>
        ensures { OnOk result (SlotTaken P.kind P.form self.old self.new (Some self.old.packet.items) out.old.items out.new.items) }
    {
        let answer = self.receiver.arrived(
            self.packet.as_slice(),
            self.row.as_mut_slice(),
            self.marks.as_mut_slice(),
        );
        self.print_answer(answer, out)?;
        Ok(())
    }

    // Takes a slot that was missed, and prints the row that falls due with it. Beside `take_arrived`, as the receiver has two calls.
    fn take_missed(&mut self, out: &mut Vec<u8>) -> Result<(), AllocError>
        ensures { OnOk result (SlotTaken P.kind P.form self.old self.new None out.old.items out.new.items) }
    {
        let answer = self
            .receiver
            .missed(self.row.as_mut_slice(), self.marks.as_mut_slice());
        self.print_answer(answer, out)?;
        Ok(())
    }
}

impl<'w, P: Printed> LineRun for MendRun<'w, P> {
    ghost rest = { rest_of P.kind P.form };

    ghost sound = { Sound };

    ghost paused = { stopped };

    fn take_line(&mut self, line: &[u8], out: &mut Vec<u8>) -> Result<(), AllocError> {
        match self.reader.read(line, self.packet.as_mut_slice()) {
            Ok(MendLine::Arrived { .. }) => self.take_arrived(out)?,
            Ok(MendLine::Missed { .. }) => self.take_missed(out)?,
            Ok(MendLine::Header(_)) => {}
            Err(fault) => print_fault(fault, out)?,
        }
        Ok(())
    }

    fn refuses(&self, begun: &[u8]) -> bool {
        let len = 9 + self.sheet.packet_len() * P::layout().width;
        match begun {
            [] => false,
            [letter, ..] => match *letter {
                b'A' => len < begun.len(),
                b'M' => 9 < begun.len(),
                _ => true,
            },
        }
    }

    fn is_paused(&self) -> bool {
        !matches!(self.reader.standing(), Standing::InRun { .. })
    }
}
