// A kind whose symbols have numbers, by which they are printed.
ghost use Rattle.std.specs.Prelude.{◌≡◌, ℕ, ◌≤◌, Some};
ghost use Rattle.kinds.specs.Form.{Form, symbol_of, BelongsToOne};

use crate::layout::Layout;
use crate::symbol::Symbol;

pub trait Printed: Symbol {
    const LETTER: char;

    const WIDTH: usize;

    const TOP: u32;

    // The layout and the numbers of the symbols, with the laws that each `impl` owes.
    ghost form: { Form Self };

    ghost LETTER: { ℕ };

    ghost WIDTH: { ℕ };

    ghost TOP: { ℕ };

    // The three constants, together.
    final fn layout() -> Layout
        ensures { result ≡ form.layout }
    {
        Layout {
            letter: Self::LETTER,
            width: Self::WIDTH,
            top: Self::TOP,
        }
    }

    // The symbol's number. A method, as `of_number` is, so that the one bound `Printed` brings both with their laws.
    fn number(self) -> u32
        ensures { result ≡ form.number self };

    // The symbol that has this number, if one has.
    fn of_number(n: u32) -> Option<Self>
        ensures { result ≡ symbol_of form n };

    // The constants are those of the form.
    ghost constants: { (LETTER ≡ form.layout.letter) × (WIDTH ≡ form.layout.width) × (TOP ≡ form.layout.top) };

    // Reading a symbol's number back gives that symbol.
    ghost round_trip: { (symbol : Self) → symbol_of form (form.number symbol) ≡ Some symbol };

    // Every number from 0 to the top belongs to one symbol.
    ghost one_symbol: { (n : ℕ) → n ≤ form.layout.top → BelongsToOne form n };
}
