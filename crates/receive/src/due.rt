// The row that falls due, and what became of it.
ghost use Rattle.std.specs.Prelude.{◌≡◌, ◌≤◌, length};
ghost use Rattle.std.specs.List.{position};
ghost use Rattle.receive.specs.Handing.{is_lost, verdict};

use code::Mark;

// The verdict on a row: all of it arrived; or so many symbols were mended; or some are lost, the first of them at a place.
#[derive(Clone, Copy, Debug, PartialEq, Eq)]
pub enum Verdict {
    Whole,
    Mended(u8),
    Lost { mended: u8, lost: u8, first: u8 },
}

#[derive(Clone, Copy, Debug, PartialEq, Eq)]
pub struct Due {
    pub row: u32,
    pub verdict: Verdict,
}

// The place of the first lost symbol.
fn first_lost(marks: &[Mark]) -> Option<usize>
    ensures { result ≡ position is_lost marks.now }
{
    marks.iter().position(|mark| *mark == Mark::Lost)
}

// The verdict on a row with these marks.
pub(crate) fn verdict_of(marks: &[Mark]) -> Verdict
    requires { length marks.now ≤ 48 }
    ensures { result ≡ verdict marks.now }
{
    let mut mended = 0;
    let mut lost = 0;
    // A loop: to filter and count twice takes longer.
    for mark in marks {
        mended += u8::from(*mark == Mark::Mended);
        lost += u8::from(*mark == Mark::Lost);
    }
    if 0 < lost {
        let first = first_lost(marks).unwrap_or(0) as u8;
        Verdict::Lost {
            mended,
            lost,
            first,
        }
    } else if 0 < mended {
        Verdict::Mended(mended)
    } else {
        Verdict::Whole
    }
}
