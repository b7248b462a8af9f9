// The readers of single lines, without the byte 10 that ends them. Each tests its refusals in the order of their numbers.
ghost use Rattle.std.specs.Prelude.{◌≡◌, ◌+◌, ◌*◌, ◌^◌, ◌<◌, ◌≤◌, length, take, drop, IfOk};
ghost use Rattle.lines.specs.Fields.{field_read};
ghost use Rattle.lines.specs.Symbols.{symbol_read};
ghost use Rattle.text.specs.Inverse.{HeaderInverse, RowInverse, PacketInverse, MissedInverse};
ghost use Rattle.text.specs.Reading.{kind_of, numbered, header_read, symbols_read, symbols_of, missed_read, fitting, row_into, packet_into, symbols_or, holding, told};

use crate::fault::LineFault;
use code::{PutRefusal, Sheet, SlotRefusal};
use kinds::Printed;
use lines::{Field, FieldFault, Header, SymbolKind};

// The kind that has this letter. A function, since a `TryFrom` would stand where the kind does, below this fault.
pub fn kind_of(letter: char) -> Result<SymbolKind, LineFault>
    ensures { result ≡ kind_of letter }
{
    match letter {
        'B' => Ok(SymbolKind::Bytes),
        'D' => Ok(SymbolKind::Digits),
        _ => Err(LineFault::Kind),
    }
}

// The number in a part of a line that begins at the byte `at`.
fn read_number(bytes: &[u8], at: u32, top: u32) -> Result<u32, FieldFault>
    ensures { result ≡ field_read at top bytes.now }
{
    Field { bytes, at }.read(top)
}

// The header that an H line holds.
#[tactic(auto, using(crate::proofs::HeaderInverse::header_inverse))]
pub fn read_header(line: &[u8]) -> Result<Header, LineFault>
    ensures value { result ≡ header_read line.now }
    ensures inverse { HeaderInverse }
{
    match line {
        [b'H', kind, rest @ ..] if rest.len() == 12 => {
            let kind = kind_of(char::from(*kind))?;
            let burst = read_number(&rest[..4], 3, 9_999)?;
            let row = read_number(&rest[4..8], 7, 9_999)?;
            let parity = read_number(&rest[8..], 11, 9_999)?;
            let sheet = Sheet::new(burst, row, parity)?;
            Ok(Header { kind, sheet })
        }
        [b'H', ..] => Err(LineFault::Length),
        _ => Err(LineFault::Letter),
    }
}

// The number of a line of this length that begins with this letter.
fn numbered(line: &[u8], letter: u8, len: usize) -> Result<u32, LineFault>
    requires { 9 ≤ len }
    ensures value { result ≡ numbered letter len line.now }
    ensures long { IfOk result (λ _. length line.now ≡ len) }
{
    if line.first() != Some(&letter) {
        return Err(LineFault::Letter);
    }
    if line.len() != len {
        return Err(LineFault::Length);
    }
    let number = read_number(&line[1..9], 2, 999_999)?;
    Ok(number)
}

// The symbol in the first field of a part, of which the rest is left.
fn next_symbol<P: Printed>(part: &mut Field<'_>) -> Result<P, FieldFault>
    requires fill { P.form.layout.width ≤ length part.old.bytes.now }
    requires short { part.old.at + length part.old.bytes.now < 2 ^ 32 }
    ensures first { result ≡ symbol_read P.form part.old.at (take P.form.layout.width part.old.bytes.now) }
    ensures rest { part.new.bytes.now ≡ drop P.form.layout.width part.old.bytes.now }
    ensures at { part.new.at ≡ part.old.at + P.form.layout.width }
{
    let width = P::layout().width;
    let (bytes, rest) = part.bytes.split_at(width);
    let first = Field { bytes, at: part.at };
    part.bytes = rest;
    part.at += width as u32;
    first.read_symbol()
}

// The symbols of a part with a field for each. Beside the next, which writes nothing: one loop with a closure, and one inlined in its
// caller, take longer.
#[inline(never)]
fn read_fields<P: Printed>(mut part: Field<'_>, symbols: &mut [P]) -> Result<(), FieldFault>
    requires fill { length part.bytes.now ≡ length symbols.old * P.form.layout.width }
    requires short { part.at + length part.bytes.now < 2 ^ 32 }
    ensures { symbols_read P.form part.entry.at (length symbols.old) part.entry.bytes.now ≡ holding result symbols.new }
{
    for symbol in symbols.iter_mut() {
        *symbol = next_symbol(&mut part)?;
    }
    Ok(())
}

// Whether so many fields hold symbols.
#[inline(never)]
fn check_fields<P: Printed>(mut part: Field<'_>, count: usize) -> Result<(), FieldFault>
    requires fill { length part.bytes.now ≡ count * P.form.layout.width }
    requires short { part.at + length part.bytes.now < 2 ^ 32 }
    ensures { result ≡ told (symbols_read P.form part.entry.at count part.entry.bytes.now) }
{
    for _ in 0..count {
        next_symbol::<P>(&mut part)?;
    }
    Ok(())
}

// The symbols of a line with this letter. The place is written when nothing is left to refuse.
#[tactic(auto, using(crate::proofs::Symbols::length_read))]
fn read_symbols<P: Printed>(
    line: &[u8],
    letter: u8,
    count: usize,
    next: u32,
    misfit: LineFault,
    place: &mut [P],
) -> Result<(), LineFault>
    requires { count ≤ 64 }
    ensures answer { result ≡ told (fitting misfit (length place.old) (symbols_of P.form letter count next line.now)) }
    ensures place { place.new ≡ symbols_or place.old (fitting misfit (length place.old) (symbols_of P.form letter count next line.now)) }
{
    let number = numbered(line, letter, 9 + count * P::layout().width)?;
    let fields = Field {
        bytes: &line[9..],
        at: 10,
    };
    check_fields::<P>(fields, count)?;
    if number != next {
        return Err(LineFault::Order);
    }
    if place.len() != count {
        return Err(misfit);
    }
    read_fields(fields, place)?;
    Ok(())
}

// The row that an R line holds, which has to have the next number.
pub fn read_row<P: Printed>(
    line: &[u8],
    sheet: Sheet,
    next: u32,
    place: &mut [P],
) -> Result<(), LineFault>
    ensures answer { result ≡ told (row_into P.form sheet next (length place.old) line.now) }
    ensures place { place.new ≡ symbols_or place.old (row_into P.form sheet next (length place.old) line.now) }
    ensures inverse { RowInverse P.form sheet }
{
    read_symbols(
        line,
        b'R',
        sheet.row as usize,
        next,
        LineFault::Put(PutRefusal::Place),
        place,
    )
}

// The packet that an A line holds, which has to have the next number. As with a row, one reader does it; the calls differ in what
// they expect and in whose refusal a wrong place is.
pub fn read_packet<P: Printed>(
    line: &[u8],
    sheet: Sheet,
    next: u32,
    place: &mut [P],
) -> Result<(), LineFault>
    ensures answer { result ≡ told (packet_into P.form sheet next (length place.old) line.now) }
    ensures place { place.new ≡ symbols_or place.old (packet_into P.form sheet next (length place.old) line.now) }
    ensures inverse { PacketInverse P.form sheet }
{
    read_symbols(
        line,
        b'A',
        sheet.packet_len(),
        next,
        LineFault::Slot(SlotRefusal::Place),
        place,
    )
}

// An M line, which has to have the next number.
#[tactic(auto, using(crate::proofs::Inverses::missed_inverse))]
pub fn read_missed(line: &[u8], next: u32) -> Result<(), LineFault>
    ensures value { result ≡ missed_read next line.now }
    ensures inverse { MissedInverse }
{
    let number = numbered(line, b'M', 9)?;
    if number != next {
        return Err(LineFault::Order);
    }
    Ok(())
}
