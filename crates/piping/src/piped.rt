// A program from its input to its output.
ghost use Rattle.std.specs.Prelude.{IfOk, OnOk};
ghost use Rattle.opening.specs.Headed.{whole_text};
ghost use Rattle.stream.specs.Lines.{lines_of};
ghost use Rattle.piping.specs.Writing.{Written, OpeningEnded, HeaderPumped};

use crate::flow::{in_pieces, pump_to_end};
use lines::Header;
use opening::{Opening, Program};
use std::alloc::{AllocError, Global};
use std::io::{BufRead, Read, Write};
use std::process::ExitCode;
use stream::LineRun;
use text::RunFault;

pub trait Piped: Program {
    // Writes what the lines after the header bring. Answers the fault that ended the run, if one did.
    fn pump_body<I: BufRead, O: Write>(
        heap: Global,
        header: Header,
        input: &mut I,
        output: &mut O,
    ) -> anyhow::Result<Option<RunFault>>
        ensures { OnOk result (Written (λ bytes. Self.body header (lines_of bytes)) (I.remaining input.old) (O.contents output.old) (O.contents output.new)) };
}

// The header that the opening has read. Where the input has ended before any line, prints the fault of an empty one.
fn header_of<G: Program>(
    mut opening: Opening<G>,
    printed: &mut Vec<u8>,
) -> Result<Option<Header>, AllocError>
    ensures { IfOk result (λ header. OpeningEnded G.echo G.body opening printed.old.items printed.new.items header) }
{
    if !opening.is_paused() {
        opening.end(printed)?;
    }
    Ok(opening.header())
}

// Writes what the program G prints of its header, and answers the header, if it was read.
fn pump_header<G: Program, I: BufRead, O: Write>(
    heap: Global,
    input: &mut I,
    output: &mut O,
) -> anyhow::Result<Option<Header>>
    ensures { IfOk result (λ header. HeaderPumped G.echo G.body header (I.remaining input.old) (I.remaining input.new) (O.contents output.old) (O.contents output.new)) }
{
    let opening = Opening::<G>::new();
    let header = pump_to_end(heap, opening, input, output, |opening, printed| {
        header_of(opening, printed)
    })?;
    Ok(header)
}

// Runs the program G over all of an input; the status tells whether it ended without a fault.
pub fn pipe<G: Piped, I: Read + Drop, O: Write>(
    heap: Global,
    input: I,
    output: &mut O,
) -> anyhow::Result<ExitCode>
    ensures { OnOk result (Written (whole_text G.echo G.body) (I.remaining input) (O.contents output.old) (O.contents output.new)) }
{
    // Only want of memory makes it fail, which is told as everywhere.
    let Ok(mut input) = in_pieces(heap, input) else {
        return Err(AllocError.into());
    };
    let Some(header) = pump_header::<G, _, _>(heap, &mut input, output)? else {
        return Ok(ExitCode::FAILURE);
    };
    let status = match G::pump_body(heap, header, &mut input, output)? {
        None => ExitCode::SUCCESS,
        Some(_) => ExitCode::FAILURE,
    };
    Ok(status)
}
