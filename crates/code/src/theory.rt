// What holds of the code, for every kind of symbol and every sheet.
ghost use Rattle.code.specs.Theory.{Theory};

use crate::sheet::Sheet;
use kinds::Symbol;

// Answers the sheet that its contract, the theory, is about.
#[tactic(auto, using(crate::proofs::Standing::theory))]
pub fn stands<S: Symbol>(sheet: Sheet) -> Sheet
    ensures { Theory S.kind sheet }
{
    sheet
}
