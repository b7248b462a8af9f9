// The writers of lines, byte 10 included. Each tests its refusals before it writes.
ghost use Rattle.std.specs.Prelude.{◌≡◌, ◌+◌, ◌*◌, ◌≤◌, ◌∷◌, ◌++◌, length};
ghost use Rattle.code.specs.Sheets.{n};
ghost use Rattle.lines.specs.Fields.{field};
ghost use Rattle.lines.specs.Lengths.{Lengths};
ghost use Rattle.lines.specs.Lines.{ended, kind_letter, header_line, symbols_line, row_line, packet_line, missed_line, has_mark, due_letter, due_line, tally_line, fault_line, line_length};
ghost use Rattle.lines.specs.Writing.{Wrote, header_refused, symbols_refused, due_refused, missed_refused, tally_refused, fault_refused};

use crate::header::{Header, SymbolKind};
use crate::pen::LinePen;
use crate::write::WriteRefusal;
use code::{Mark, Sheet};
use kinds::Printed;

impl SymbolKind {
    // The kind's letter. A method, which says what the char is.
    pub fn letter(self) -> char
        ensures { result ≡ kind_letter self }
    {
        match self {
            SymbolKind::Bytes => 'B',
            SymbolKind::Digits => 'D',
        }
    }
}

// The H line.
pub fn write_header(place: &mut [u8], header: Header) -> Result<(), WriteRefusal>
    ensures { Wrote (header_refused (length place.old)) (ended (header_line header.kind header.sheet)) place.old result place.new }
{
    if place.len() != 15 {
        return Err(WriteRefusal::Place);
    }
    let mut pen = LinePen::new(place);
    pen.byte(b'H');
    pen.byte(header.kind.letter() as u8);
    pen.number(4, header.sheet.burst);
    pen.number(4, header.sheet.row);
    pen.number(4, header.sheet.parity);
    pen.byte(b'\n');
    Ok(())
}

// The line of a letter, a number and symbols.
fn write_symbols<P: Printed>(
    place: &mut [u8],
    letter: u8,
    count: usize,
    number: u32,
    symbols: &[P],
) -> Result<(), WriteRefusal>
    requires { count ≤ 64 }
    ensures { Wrote (symbols_refused P.form.layout.width count number (length symbols.now) (length place.old)) (ended (symbols_line P.form letter number symbols.now)) place.old result place.new }
{
    if 999_999 < number {
        return Err(WriteRefusal::Number);
    }
    if symbols.len() != count {
        return Err(WriteRefusal::Length);
    }
    if place.len() != 10 + count * P::layout().width {
        return Err(WriteRefusal::Place);
    }
    let mut pen = LinePen::new(place);
    pen.byte(letter);
    pen.number(8, number);
    pen.symbols(symbols);
    pen.byte(b'\n');
    Ok(())
}

// The R line.
pub fn write_row<P: Printed>(
    place: &mut [u8],
    sheet: Sheet,
    number: u32,
    row: &[P],
) -> Result<(), WriteRefusal>
    ensures { Wrote (symbols_refused P.form.layout.width sheet.row number (length row.now) (length place.old)) (ended (row_line P.form number row.now)) place.old result place.new }
{
    write_symbols(place, b'R', sheet.row as usize, number, row)
}

// The A line.
pub fn write_packet<P: Printed>(
    place: &mut [u8],
    sheet: Sheet,
    number: u32,
    packet: &[P],
) -> Result<(), WriteRefusal>
    ensures { Wrote (symbols_refused P.form.layout.width (n sheet) number (length packet.now) (length place.old)) (ended (packet_line P.form number packet.now)) place.old result place.new }
{
    write_symbols(place, b'A', sheet.packet_len(), number, packet)
}

// The M line.
pub fn write_missed(place: &mut [u8], number: u32) -> Result<(), WriteRefusal>
    ensures { Wrote (missed_refused number (length place.old)) (ended (missed_line number)) place.old result place.new }
{
    if 999_999 < number {
        return Err(WriteRefusal::Number);
    }
    if place.len() != 10 {
        return Err(WriteRefusal::Place);
    }
    let mut pen = LinePen::new(place);
    pen.byte(b'M');
    pen.number(8, number);
    pen.byte(b'\n');
    Ok(())
}

// Whether one of the marks is this mark.
fn any(marks: &[Mark], mark: Mark) -> bool
    ensures { result ≡ has_mark mark marks.now }
{
    marks.contains(&mark)
}

fn letter_of(marks: &[Mark]) -> u8
    ensures { result ≡ due_letter marks.now }
{
    if any(marks, Mark::Lost) {
        b'L'
    } else if any(marks, Mark::Mended) {
        b'N'
    } else {
        b'W'
    }
}

// The W, N or L line.
pub fn write_due<P: Printed>(
    place: &mut [u8],
    sheet: Sheet,
    number: u32,
    row: &[P],
    marks: &[Mark],
) -> Result<(), WriteRefusal>
    ensures { Wrote (due_refused P.form.layout.width sheet.row number (length row.now) (length marks.now) (length place.old)) (ended (due_line P.form number row.now marks.now)) place.old result place.new }
{
    let count = sheet.row as usize;
    if 999_999 < number {
        return Err(WriteRefusal::Number);
    }
    if row.len() != count || marks.len() != count {
        return Err(WriteRefusal::Length);
    }
    if place.len() != 10 + count * P::layout().width {
        return Err(WriteRefusal::Place);
    }
    let mut pen = LinePen::new(place);
    pen.byte(letter_of(marks));
    pen.number(8, number);
    pen.due_symbols(row, marks);
    pen.byte(b'\n');
    Ok(())
}

// The E line: the slots taken, and the rows given whole, mended and lost. Four numbers: a receiver's tally has them as one,
// and this crate stands below it.
pub fn write_tally(
    place: &mut [u8],
    slots: u32,
    whole: u32,
    mended: u32,
    lost: u32,
) -> Result<(), WriteRefusal>
    ensures { Wrote (tally_refused slots whole mended lost (length place.old)) (ended (tally_line slots whole mended lost)) place.old result place.new }
{
    if 1_000_000 < slots || 1_000_000 < whole || 1_000_000 < mended || 1_000_000 < lost {
        return Err(WriteRefusal::Number);
    }
    if place.len() != 34 {
        return Err(WriteRefusal::Place);
    }
    let mut pen = LinePen::new(place);
    pen.byte(b'E');
    pen.number(8, slots);
    pen.number(8, whole);
    pen.number(8, mended);
    pen.number(8, lost);
    pen.byte(b'\n');
    Ok(())
}

// The X line of a line, a refusal and a position in that line.
pub fn write_refusal(
    place: &mut [u8],
    line: u32,
    refusal: u32,
    position: u32,
) -> Result<(), WriteRefusal>
    ensures { Wrote (fault_refused line refusal position (length place.old)) (ended (fault_line line refusal position)) place.old result place.new }
{
    if 99_999_999 < line || 9_999 < refusal || 9_999 < position {
        return Err(WriteRefusal::Number);
    }
    if place.len() != 18 {
        return Err(WriteRefusal::Place);
    }
    let mut pen = LinePen::new(place);
    pen.byte(b'X');
    pen.number(8, line);
    pen.number(4, refusal);
    pen.number(4, position);
    pen.byte(b'\n');
    Ok(())
}

// The bytes of the line with this letter, byte 10 included, or none where no line has it.
pub fn line_len<P: Printed>(letter: char, sheet: Sheet) -> Option<usize>
    ensures value { result ≡ line_length P.form.layout sheet letter }
    ensures lengths { Lengths P.form sheet }
{
    let width = P::layout().width;
    match letter {
        'H' => Some(15),
        'R' | 'W' | 'N' | 'L' => Some(10 + sheet.row as usize * width),
        'A' => Some(10 + sheet.packet_len() * width),
        'M' => Some(10),
        'E' => Some(34),
        'X' => Some(18),
        _ => None,
    }
}
