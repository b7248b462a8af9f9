// What a receiver has counted: the slots taken, and the rows given whole, mended and lost.
ghost use Rattle.std.specs.Prelude.{◌≡◌, ◌+◌, ◌<◌, ◌≤◌, if◌then◌else◌};
ghost use Rattle.receive.specs.Handing.{whole_row, mended_row, lost_row};

use crate::due::Verdict;

#[derive(Clone, Copy, Debug, PartialEq, Eq)]
pub struct Tally {
    pub slots: u32,
    pub whole: u32,
    pub mended: u32,
    pub lost: u32,
}

impl Tally {
    pub(crate) fn new() -> Tally
        ensures { (result.slots ≡ 0) × (result.whole ≡ 0) × (result.mended ≡ 0) × (result.lost ≡ 0) }
    {
        Tally {
            slots: 0,
            whole: 0,
            mended: 0,
            lost: 0,
        }
    }

    // One more row.
    pub(crate) fn count(&mut self, verdict: Verdict)
        requires { (self.old.whole + self.old.mended) + self.old.lost < 1000000 }
        ensures slots { self.new.slots ≡ self.old.slots }
        ensures whole { self.new.whole ≡ self.old.whole + (if whole_row verdict then 1 else 0) }
        ensures mended { self.new.mended ≡ self.old.mended + (if mended_row verdict then 1 else 0) }
        ensures lost { self.new.lost ≡ self.old.lost + (if lost_row verdict then 1 else 0) }
    {
        match verdict {
            Verdict::Whole => self.whole += 1,
            Verdict::Mended(_) => self.mended += 1,
            Verdict::Lost { .. } => self.lost += 1,
        }
    }
}
