// The code is the published one.
ghost use Rattle.code.specs.Published.{AsPublished};

use crate::sheet::Sheet;
use kinds::Symbol;

// Answers the sheet that its contract is about: the packets are those of the published construction.
#[tactic(auto, using(crate::proofs::Construction::as_published))]
pub fn as_published<S: Symbol>(sheet: Sheet) -> Sheet
    ensures { AsPublished S.kind sheet }
{
    sheet
}
