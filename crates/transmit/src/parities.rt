// The parity symbols of a slot, a block at a time: the symbols of a block lie in one piece of the line.
ghost use Rattle.std.specs.Prelude.{◌≡◌, ◌+◌, min, length};
ghost use Rattle.transmit.specs.Keeping.{kept, sums};

use code::{Block, Sheet};
use kinds::Symbol;
use line::{SymbolLine, clear};

// Adds what slot `slots` carries of a block.
fn add_block<S: Symbol>(line: &SymbolLine<'_, S>, block: Block, slots: u32, place: &mut [S])
    requires { length place.old ≡ block.sheet.parity }
    ensures { place.old ≡ sums S.kind block.sheet (kept S.kind block.sheet slots line.now) slots block.first → place.new ≡ sums S.kind block.sheet (kept S.kind block.sheet slots line.now) slots (min (block.first + block.sheet.parity) block.sheet.row) }
{
    if slots < block.lag {
        return;
    }
    let column = block.column();
    let size = block.len();
    let steps = (block.lag * block.sheet.row - block.first) as usize;
    line.add_back(steps, &mut place[column..column + size]);
}

// Writes the parity symbols of slot `slots`.
pub(crate) fn write_parities<S: Symbol>(
    line: &SymbolLine<'_, S>,
    sheet: Sheet,
    slots: u32,
    place: &mut [S],
)
    requires { length place.old ≡ sheet.parity }
    ensures { place.new ≡ sums S.kind sheet (kept S.kind sheet slots line.now) slots sheet.row }
{
    clear(place);
    for block in sheet.blocks() {
        add_block(line, block, slots, place);
    }
}
