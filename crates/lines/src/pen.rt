// A line that is being written, piece after piece.
ghost use Rattle.std.specs.Prelude.{◌≡◌, ◌+◌, ◌*◌, ◌^◌, ◌<◌, ◌≤◌, [], ◌∷◌, length};
ghost use Rattle.lines.specs.Fields.{field};
ghost use Rattle.lines.specs.Lines.{lost_field, symbol_fields, due_field, due_fields};
ghost use Rattle.lines.specs.Pen.{Puts};

use crate::field::put_field;
use code::Mark;
use kinds::Printed;

// The first `at` bytes of the place are written.
#[derive(Drop)]
pub(crate) struct LinePen<'a> {
    place: &'a mut [u8],
    at: usize,
}

// Over the whole part.
fn put_lost_field(part: &mut [u8])
    requires { 1 ≤ length part.old }
    ensures { part.new ≡ lost_field (length part.old) }
{
    put_field(part, 0);
    let last = part.len() - 1;
    part[last] = b'?';
}

impl<'a> LinePen<'a> {
    pub(crate) fn new(place: &'a mut [u8]) -> LinePen<'a>
        ensures at { result.at ≡ 0 }
        ensures place { result.place.now ≡ place.old }
        ensures same { result.place.ghost_name ≡ place.entry.ghost_name }
    {
        LinePen { place, at: 0 }
    }

    pub(crate) fn byte(&mut self, byte: u8)
        requires { self.old.at < length self.old.place.now }
        ensures { Puts self.old self.new 1 (byte ∷ []) }
    {
        self.place[self.at] = byte;
        self.at += 1;
    }

    pub(crate) fn number(&mut self, width: usize, number: u32)
        requires within { self.old.at + width ≤ length self.old.place.now }
        requires some { 1 ≤ width }
        requires room { number < 10 ^ width }
        ensures { Puts self.old self.new width (field width number) }
    {
        let next = self.at + width;
        put_field(&mut self.place[self.at..next], number);
        self.at = next;
    }

    // The lines of `number` around another piece.
    fn lost(&mut self, width: usize)
        requires within { self.old.at + width ≤ length self.old.place.now }
        requires some { 1 ≤ width }
        ensures { Puts self.old self.new width (lost_field width) }
    {
        let next = self.at + width;
        put_lost_field(&mut self.place[self.at..next]);
        self.at = next;
    }

    pub(crate) fn symbols<P: Printed>(&mut self, symbols: &[P])
        requires { self.old.at + length symbols.now * P.form.layout.width ≤ length self.old.place.now }
        ensures { Puts self.old self.new (length symbols.now * P.form.layout.width) (symbol_fields P.form symbols.now) }
    {
        let width = P::layout().width;
        for symbol in symbols {
            self.number(width, symbol.number());
        }
    }

    fn due_symbol<P: Printed>(&mut self, width: usize, symbol: P, mark: Mark)
        requires kind { width ≡ P.form.layout.width }
        requires within { self.old.at + width ≤ length self.old.place.now }
        ensures { Puts self.old self.new width (due_field P.form mark symbol) }
    {
        match mark {
            Mark::Arrived | Mark::Mended => self.number(width, symbol.number()),
            Mark::Lost => self.lost(width),
        }
    }

    pub(crate) fn due_symbols<P: Printed>(&mut self, row: &[P], marks: &[Mark])
        requires paired { length marks.now ≡ length row.now }
        requires within { self.old.at + length row.now * P.form.layout.width ≤ length self.old.place.now }
        ensures { Puts self.old self.new (length row.now * P.form.layout.width) (due_fields P.form row.now marks.now) }
    {
        let width = P::layout().width;
        for (symbol, mark) in row.iter().zip(marks) {
            self.due_symbol(width, *symbol, *mark);
        }
    }
}
