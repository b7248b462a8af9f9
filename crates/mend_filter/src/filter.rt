// `mend` as a function from text to text.
ghost use Rattle.std.specs.Prelude.{◌≡◌, ◌++◌, IfOk, OnOk};
ghost use Rattle.stream.specs.Lines.{lines_of};
ghost use Rattle.runs.specs.Whole.{reading, slot_read};
ghost use Rattle.piping.specs.Writing.{Written};
ghost use Rattle.mending.specs.Text.{list_text, echo, body, mend_text};

use code::Mark;
use kinds::{Byte, Digit, Printed, Symbol};
use lines::{Header, SymbolKind};
use mending::MendRun;
use opening::{Opening, Program, feed_whole, text_of};
use piping::{Piped, pump_to_end};
use receive::window_len;
use runs::{MendReader, Standing, filled};
use std::alloc::{AllocError, Global};
use std::io::{BufRead, Write};
use text::RunFault;

// Prints what the lines after a header bring. `send_filter` has its own: the type of a run has its window's lifetime and its symbols
// as parameters, which no trait can name.
fn mend_slots<P: Printed>(
    heap: Global,
    header: Header,
    text: &[u8],
    out: &mut Vec<u8>,
) -> Result<(), AllocError>
    ensures { OnOk result (out.new.items ≡ out.old.items ++ list_text P.kind P.form header.sheet (reading (slot_read P.form header.sheet) 0 (lines_of text.now))) }
{
    let sheet = header.sheet;
    let mut window = filled(heap, P::zero(), window_len(sheet))?;
    let packet = filled(heap, P::zero(), sheet.packet_len())?;
    let row = filled(heap, P::zero(), sheet.row as usize)?;
    let marks = filled(heap, Mark::Arrived, sheet.row as usize)?;
    let mut run = MendRun::new(header, window.as_mut_slice(), packet, row, marks);
    feed_whole(heap, &mut run, text, out)?;
    run.end(out)?;
    Ok(())
}

// Writes what the slots of an input bring, and answers the fault that ended the run, if one did. Beside `mend_slots`, which fails only
// for want of memory.
fn pump_slots<P: Printed, I: BufRead, O: Write>(
    heap: Global,
    header: Header,
    input: &mut I,
    output: &mut O,
) -> anyhow::Result<Option<RunFault>>
    ensures { OnOk result (Written (λ bytes. list_text P.kind P.form header.sheet (reading (slot_read P.form header.sheet) 0 (lines_of bytes))) (I.remaining input.old) (O.contents output.old) (O.contents output.new)) }
{
    let sheet = header.sheet;
    let mut window = filled(heap, P::zero(), window_len(sheet))?;
    let packet = filled(heap, P::zero(), sheet.packet_len())?;
    let row = filled(heap, P::zero(), sheet.row as usize)?;
    let marks = filled(heap, Mark::Arrived, sheet.row as usize)?;
    let run = MendRun::new(header, window.as_mut_slice(), packet, row, marks);
    let fault = pump_to_end(heap, run, input, output, |run, printed| run.end(printed))?;
    Ok(fault)
}

#[derive(Clone, Copy)]
pub struct Mending;

pub type MendOpening = Opening<Mending>;

impl Program for Mending {
    ghost echo = { echo };

    ghost body = { body };

    fn read_first(line: &[u8]) -> Standing {
        let mut reader = MendReader::new();
        // What it answers is told by where it stands then.
        let _ = reader.read::<Byte>(line, &mut []);
        reader.standing()
    }

    // Nothing is printed of a header.
    fn print_header(_header: Header, _out: &mut Vec<u8>) -> Result<(), AllocError> {
        Ok(())
    }

    fn print_body(
        heap: Global,
        header: Header,
        text: &[u8],
        out: &mut Vec<u8>,
    ) -> Result<(), AllocError> {
        // The kind chooses the instance: no closure is generic in its symbols.
        match header.kind {
            SymbolKind::Bytes => mend_slots::<Byte>(heap, header, text, out)?,
            SymbolKind::Digits => mend_slots::<Digit>(heap, header, text, out)?,
        }
        Ok(())
    }
}

impl Piped for Mending {
    fn pump_body<I: BufRead, O: Write>(
        heap: Global,
        header: Header,
        input: &mut I,
        output: &mut O,
    ) -> anyhow::Result<Option<RunFault>> {
        let fault = match header.kind {
            SymbolKind::Bytes => pump_slots::<Byte, _, _>(heap, header, input, output)?,
            SymbolKind::Digits => pump_slots::<Digit, _, _>(heap, header, input, output)?,
        };
        Ok(fault)
    }
}

// All that `mend` prints for a text.
pub fn mend_text(heap: Global, text: &[u8]) -> Result<Vec<u8>, AllocError>
    ensures { IfOk result (λ v. v.items ≡ mend_text text.now) }
{
    text_of::<Mending>(heap, text)
}
