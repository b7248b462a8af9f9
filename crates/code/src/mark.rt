// What a symbol that is handed out is: as it arrived, mended, or lost.
ghost use Rattle.std.specs.Prelude.{◌≡◌};
ghost use Rattle.code.specs.Marks.{mark_number};

#[derive(Clone, Copy, Debug, PartialEq, Eq)]
pub enum Mark {
    Arrived = 0,
    Mended = 1,
    Lost = 2,
}

impl Mark {
    pub fn number(self) -> u32
        ensures { result ≡ mark_number self }
    {
        self as u32
    }
}
