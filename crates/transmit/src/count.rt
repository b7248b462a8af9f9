// How far a sending run has come. Two counts: that a sender which takes rows has given no tails is in its type, not in a fact.
ghost use Rattle.std.specs.Prelude.{◌≡◌, ◌+◌, ◌<◌, ◌≤◌};

// The rows that were put.
#[derive(Clone, Copy, Debug, PartialEq, Eq)]
pub struct RowCount {
    pub rows: u32,
    ghost top: { rows ≤ 1000000 },
}

// The rows that were put, and the tail packets given after them.
#[derive(Clone, Copy, Debug, PartialEq, Eq)]
pub struct SlotCount {
    pub rows: u32,
    pub tails: u32,
    ghost top: { rows + tails ≤ 1000000 },
}

impl RowCount {
    pub(crate) fn new() -> RowCount
        ensures { result.rows ≡ 0 }
    {
        RowCount { rows: 0 }
    }

    pub(crate) fn add_row(&mut self)
        requires { self.old.rows < 1000000 }
        ensures { self.new.rows ≡ self.old.rows + 1 }
    {
        self.rows += 1;
    }

    pub(crate) fn wound(self) -> SlotCount
        ensures { (result.rows ≡ self.rows) × (result.tails ≡ 0) }
    {
        SlotCount {
            rows: self.rows,
            tails: 0,
        }
    }
}

impl SlotCount {
    pub(crate) fn add_tail(&mut self)
        requires { self.old.rows + self.old.tails < 1000000 }
        ensures rows { self.new.rows ≡ self.old.rows }
        ensures tails { self.new.tails ≡ self.old.tails + 1 }
    {
        self.tails += 1;
    }
}
