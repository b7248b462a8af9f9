// `send` as a function from text to text.
ghost use Rattle.std.specs.Prelude.{◌≡◌, ◌++◌, IfOk, OnOk};
ghost use Rattle.text.specs.Reading.{row_read};
ghost use Rattle.stream.specs.Lines.{lines_of};
ghost use Rattle.runs.specs.Whole.{reading};
ghost use Rattle.piping.specs.Writing.{Written};
ghost use Rattle.sending.specs.Text.{list_text, echo, body, send_text};

use kinds::{Byte, Digit, Printed, Symbol};
use lines::{Header, SymbolKind, write_header};
use opening::{Opening, Program, feed_whole, text_of};
use piping::{Piped, pump_to_end};
use runs::{SendReader, Standing, filled, print_with};
use sending::SendRun;
use std::alloc::{AllocError, Global};
use std::io::{BufRead, Write};
use text::RunFault;
use transmit::window_len;

// Prints what the lines after a header bring. `mend_filter` has its own: the type of a run has its window's lifetime and its symbols
// as parameters, which no trait can name.
fn send_rows<P: Printed>(
    heap: Global,
    header: Header,
    text: &[u8],
    out: &mut Vec<u8>,
) -> Result<(), AllocError>
    ensures { OnOk result (out.new.items ≡ out.old.items ++ list_text P.kind P.form header.sheet (reading (row_read P.form header.sheet) 0 (lines_of text.now))) }
{
    let sheet = header.sheet;
    let mut window = filled(heap, P::zero(), window_len(sheet))?;
    let row = filled(heap, P::zero(), sheet.row as usize)?;
    let packet = filled(heap, P::zero(), sheet.packet_len())?;
    let mut run = SendRun::new(header, window.as_mut_slice(), row, packet);
    feed_whole(heap, &mut run, text, out)?;
    run.end(out)?;
    Ok(())
}

// Writes what the rows of an input bring, and answers the fault that ended the run, if one did. Beside `send_rows`, which fails only
// for want of memory.
fn pump_rows<P: Printed, I: BufRead, O: Write>(
    heap: Global,
    header: Header,
    input: &mut I,
    output: &mut O,
) -> anyhow::Result<Option<RunFault>>
    ensures { OnOk result (Written (λ bytes. list_text P.kind P.form header.sheet (reading (row_read P.form header.sheet) 0 (lines_of bytes))) (I.remaining input.old) (O.contents output.old) (O.contents output.new)) }
{
    let sheet = header.sheet;
    let mut window = filled(heap, P::zero(), window_len(sheet))?;
    let row = filled(heap, P::zero(), sheet.row as usize)?;
    let packet = filled(heap, P::zero(), sheet.packet_len())?;
    let run = SendRun::new(header, window.as_mut_slice(), row, packet);
    let fault = pump_to_end(heap, run, input, output, |run, printed| run.end(printed))?;
    Ok(fault)
}

#[derive(Clone, Copy)]
pub struct Sending;

pub type SendOpening = Opening<Sending>;

impl Program for Sending {
    ghost echo = { echo };

    ghost body = { body };

    fn read_first(line: &[u8]) -> Standing {
        let mut reader = SendReader::new();
        // What it answers is told by where it stands then.
        let _ = reader.read::<Byte>(line, &mut []);
        reader.standing()
    }

    // Prints the H line.
    fn print_header(header: Header, out: &mut Vec<u8>) -> Result<(), AllocError> {
        print_with(15, |line| write_header(line, header), out)?;
        Ok(())
    }

    fn print_body(
        heap: Global,
        header: Header,
        text: &[u8],
        out: &mut Vec<u8>,
    ) -> Result<(), AllocError> {
        // The kind chooses the instance: no closure is generic in its symbols.
        match header.kind {
            SymbolKind::Bytes => send_rows::<Byte>(heap, header, text, out)?,
            SymbolKind::Digits => send_rows::<Digit>(heap, header, text, out)?,
        }
        Ok(())
    }
}

impl Piped for Sending {
    fn pump_body<I: BufRead, O: Write>(
        heap: Global,
        header: Header,
        input: &mut I,
        output: &mut O,
    ) -> anyhow::Result<Option<RunFault>> {
        let fault = match header.kind {
            SymbolKind::Bytes => pump_rows::<Byte, _, _>(heap, header, input, output)?,
            SymbolKind::Digits => pump_rows::<Digit, _, _>(heap, header, input, output)?,
        };
        Ok(fault)
    }
}

// All that `send` prints for a text.
pub fn send_text(heap: Global, text: &[u8]) -> Result<Vec<u8>, AllocError>
    ensures { IfOk result (λ v. v.items ≡ send_text text.now) }
{
    text_of::<Sending>(heap, text)
}
