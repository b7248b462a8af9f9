ghost use Rattle.std.specs.Prelude.{◌≡◌, ℕ, List, [], length, IfOk, OnOk};
ghost use Rattle.sending.specs.Printing.{rows_text};
ghost use Rattle.sending.specs.Running.{rest_of, Sound, stopped, NewRun, RowPut, Ended};

use super::SendRun;
use crate::print::print_packet;
use crate::tail::print_tail;
use kinds::Printed;
use lines::Header;
use runs::{SendLine, SendReader, Standing, print_fault};
use std::alloc::AllocError;
use stream::LineRun;
use text::{LineFault, RunFault};
use transmit::Sender;

impl<'w, P: Printed> SendRun<'w, P> {
    // A run on the sheet of this header, over a window and places of any length.
    pub fn new(header: Header, window: &'w mut [P], row: Vec<P>, packet: Vec<P>) -> SendRun<'w, P>
        ensures { NewRun P.kind P.form header.sheet (length window.old) (length row.items) (length packet.items) result }
    {
        SendRun {
            sheet: header.sheet,
            reader: SendReader::after(header),
            sender: Sender::new(header.sheet, window),
            row,
            packet,
        }
    }

    // The lines have ended: prints the tail, unless a fault has stopped the run. Answers the fault that ended it, if one did.
    pub fn end(self, out: &mut Vec<u8>) -> Result<Option<RunFault>, AllocError>
        ensures { IfOk result (λ fault. Ended P.kind P.form self.entry out.old.items out.new.items fault) }
    {
        let SendRun {
            sheet,
            reader,
            sender,
            row: _,
            mut packet,
        } = self;
        match reader.standing() {
            Standing::InRun { header: _, next } => {
                let mut winding = sender.wind_down();
                let printed = print_tail(&mut winding, sheet, next, packet.as_mut_slice(), out);
                winding.end();
                Ok(printed?)
            }
            Standing::Stopped(fault) => Ok(Some(fault)),
            Standing::BeforeHeader => Ok(None),
        }
    }

    // Puts the row that was read, and prints its packet.
    fn put_row(&mut self, slot: u32, out: &mut Vec<u8>) -> Result<(), AllocError>
        ensures { OnOk result (RowPut P.kind P.form self.old self.new slot out.old.items out.new.items) }
    {
        match self
            .sender
            .put(self.row.as_slice(), self.packet.as_mut_slice())
        {
            Ok(()) => print_packet(self.sheet, slot, self.packet.as_slice(), out)?,
            Err(refusal) => {
                let fault = self.reader.refuse(LineFault::Put(refusal));
                print_fault(fault, out)?;
            }
        }
        Ok(())
    }
}

impl<'w, P: Printed> LineRun for SendRun<'w, P> {
    ghost rest = { rest_of P.kind P.form };

    ghost sound = { Sound };

    ghost paused = { stopped };

    fn take_line(&mut self, line: &[u8], out: &mut Vec<u8>) -> Result<(), AllocError> {
        match self.reader.read(line, self.row.as_mut_slice()) {
            Ok(SendLine::Row { number }) => self.put_row(number, out)?,
            Ok(SendLine::Header(_)) => {}
            Err(fault) => print_fault(fault, out)?,
        }
        Ok(())
    }

    fn refuses(&self, begun: &[u8]) -> bool {
        let len = 9 + self.sheet.row as usize * P::layout().width;
        match begun {
            [] => false,
            [letter, ..] => *letter != b'R' || len < begun.len(),
        }
    }

    fn is_paused(&self) -> bool {
        !matches!(self.reader.standing(), Standing::InRun { .. })
    }
}
