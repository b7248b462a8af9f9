// The W, N, L and E lines that a mending run prints.
ghost use Rattle.std.specs.Prelude.{◌≡◌, ◌++◌, OnOk};
ghost use Rattle.lines.specs.Writing.{tally_refused};
ghost use Rattle.runs.specs.Whole.{unless};
ghost use Rattle.mending.specs.Printing.{due_printed, tally_text};

use code::{Mark, Sheet};
use kinds::Printed;
use lines::{write_due, write_tally};
use receive::Tally;
use runs::print_with;
use std::alloc::AllocError;

// Prints the W, N or L line of a row that fell due, unless it cannot be written.
pub(crate) fn print_due<P: Printed>(
    sheet: Sheet,
    number: u32,
    row: &[P],
    marks: &[Mark],
    out: &mut Vec<u8>,
) -> Result<(), AllocError>
    ensures { OnOk result (out.new.items ≡ out.old.items ++ due_printed P.form sheet number row.now marks.now) }
{
    let len = 10 + sheet.row as usize * P::layout().width;
    print_with(len, |line| write_due(line, sheet, number, row, marks), out)?;
    Ok(())
}

// Prints the E line, unless it cannot be written.
pub(crate) fn print_tally(tally: Tally, out: &mut Vec<u8>) -> Result<(), AllocError>
    ensures { OnOk result (out.new.items ≡ out.old.items ++ unless (tally_refused tally.slots tally.whole tally.mended tally.lost 34) (tally_text tally)) }
{
    print_with(
        34,
        |line| write_tally(line, tally.slots, tally.whole, tally.mended, tally.lost),
        out,
    )?;
    Ok(())
}
