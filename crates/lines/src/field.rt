// Numbers in the fields of a line: right-justified, with blanks before them and no leading zero.
ghost use Rattle.std.specs.Prelude.{◌≡◌, ◌^◌, ◌<◌, ◌≤◌, length, IfOk, nat_lt};
ghost use Rattle.lines.specs.Fields.{field, number_in, field_read, field_number, field_position, Inverse};
ghost use Rattle.lines.specs.Scanning.{step, SeenBelow, column_byte};
ghost use Rattle.lines.specs.Symbols.{symbol_read};
ghost use Rattle.lines.specs.Writing.{Wrote, field_refused};

use crate::write::WriteRefusal;
use kinds::Printed;
use thiserror::Error;

// Why a field is not read, with the place of its first byte in the line, counted from 1.
#[derive(Clone, Copy, Debug, PartialEq, Eq, Error)]
pub enum FieldFault {
    #[error("the field at byte {at} is not a number")]
    NotANumber { at: u32 },
    #[error("the number at byte {at} is above its top")]
    AboveTop { at: u32 },
}

impl FieldFault {
    // The refusal's number. By cases, since an enum whose cases hold something is no number.
    pub fn number(self) -> u32
        ensures { result ≡ field_number self }
    {
        match self {
            FieldFault::NotANumber { at: _ } => 4,
            FieldFault::AboveTop { at: _ } => 5,
        }
    }

    // Where the field begins.
    pub fn position(self) -> u32
        ensures { result ≡ field_position self }
    {
        match self {
            FieldFault::NotANumber { at } | FieldFault::AboveTop { at } => at,
        }
    }
}

// A part of a line, and the place of its first byte in the line, counted from 1.
#[derive(Clone, Copy, Debug, PartialEq, Eq)]
pub struct Field<'a> {
    pub bytes: &'a [u8],
    pub at: u32,
}

// What was seen of a field, from its left.
#[derive(Clone, Copy)]
enum Seen {
    Blanks,
    Number(u32),
    Wrong,
}

fn then(seen: Seen, byte: u8) -> Seen
    requires { SeenBelow seen (10 ^ 8) }
    ensures { result ≡ step seen byte }
{
    match (seen, byte) {
        (Seen::Blanks, b' ') => Seen::Blanks,
        (Seen::Blanks, b'0'..=b'9') => Seen::Number(u32::from(byte - b'0')),
        (Seen::Number(n), b'0'..=b'9') if n > 0 => Seen::Number(n * 10 + u32::from(byte - b'0')),
        _ => Seen::Wrong,
    }
}

// The number that the bytes read as, if they read as one.
fn number_of(bytes: &[u8]) -> Option<u32>
    ensures { result ≡ number_in bytes.now }
{
    if bytes.len() > 8 {
        return None;
    }
    let mut seen = Seen::Blanks;
    // A loop: a fold's closure would not know that few bytes have been seen, so that the number is small.
    for byte in bytes {
        seen = then(seen, *byte);
    }
    match seen {
        Seen::Number(n) => Some(n),
        Seen::Blanks | Seen::Wrong => None,
    }
}

impl Field<'_> {
    // The number in the field, which is at most `top`.
    #[tactic(auto, using(crate::proofs::Numbers::inverse))]
    pub fn read(self, top: u32) -> Result<u32, FieldFault>
        ensures value { result ≡ field_read self.entry.at top self.entry.bytes.now }
        ensures within { IfOk result (λ n. n ≤ top) }
        ensures inverse { Inverse }
    {
        let at = self.at;
        match number_of(self.bytes) {
            None => Err(FieldFault::NotANumber { at }),
            Some(n) if n > top => Err(FieldFault::AboveTop { at }),
            Some(n) => Ok(n),
        }
    }

    // The symbol in the field.
    pub fn read_symbol<P: Printed>(self) -> Result<P, FieldFault>
        ensures { result ≡ symbol_read P.form self.entry.at self.entry.bytes.now }
    {
        let at = self.at;
        let number = number_of(self.bytes).ok_or(FieldFault::NotANumber { at })?;
        P::of_number(number).ok_or(FieldFault::AboveTop { at })
    }
}

// The byte of a column before the last, where `left` is what the columns up to it write.
fn column(left: u32) -> u8
    ensures { result ≡ column_byte left }
{
    if left == 0 {
        b' '
    } else {
        b'0' + (left % 10) as u8
    }
}

// Writes the field of a number that the place has room for.
pub(crate) fn put_field(place: &mut [u8], number: u32)
    requires room { number < 10 ^ length place.old }
    requires some { 0 < length place.old }
    ensures { place.new ≡ field (length place.old) number }
{
    let last = place.len() - 1;
    place[last] = b'0' + (number % 10) as u8;
    let mut left = number / 10;
    // An index: nothing is known of what a loop over iter_mut().rev() leaves behind.
    for i in (0..last).rev() {
        place[i] = column(left);
        left /= 10;
    }
}

// Whether a field of this width has room for the number.
fn has_room(width: usize, number: u32) -> bool
    ensures { result ≡ nat_lt number (10 ^ width) }
{
    // By cases: a power of ten takes up to twice as long.
    match width {
        0 => number < 1,
        1 => number < 10,
        2 => number < 100,
        3 => number < 1_000,
        4 => number < 10_000,
        5 => number < 100_000,
        6 => number < 1_000_000,
        7 => number < 10_000_000,
        8 => number < 100_000_000,
        9 => number < 1_000_000_000,
        _ => true,
    }
}

// Writes the field of the number over the whole place, which is 1 to 8 columns wide.
pub fn write_field(place: &mut [u8], number: u32) -> Result<(), WriteRefusal>
    ensures { Wrote (field_refused (length place.old) number) (field (length place.old) number) place.old result place.new }
{
    let width = place.len();
    if !has_room(width, number) {
        return Err(WriteRefusal::Number);
    }
    if !(1..=8).contains(&width) {
        return Err(WriteRefusal::Place);
    }
    put_field(place, number);
    Ok(())
}
