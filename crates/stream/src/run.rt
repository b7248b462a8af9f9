// What takes the lines of a text one after the other, and prints.
ghost use Rattle.std.specs.Prelude.{◌≡◌, ℕ, ◌<◌, Bool, true, List, length, OnOk};
ghost use Rattle.stream.specs.Running.{Took, Refused, longest};

use std::alloc::AllocError;

pub trait LineRun {
    // The text that is still printed, by the lines that are still to come.
    ghost rest: { Self → List (List ℕ) → List ℕ };

    // The parts of the run have come equally far.
    ghost sound: { Self → Type 0 };

    // The run takes no more lines.
    ghost paused: { Self → Bool };

    // Takes the next line, without the byte 10 that ends it, and prints what it decides behind what `out` holds.
    fn take_line(&mut self, line: &[u8], out: &mut Vec<u8>) -> Result<(), AllocError>
        ensures { OnOk result (Took rest sound paused self.old self.new line.now out.old.items out.new.items) };

    // Whether every line that begins so is refused alike, whatever follows. A line of more than 521 bytes is.
    fn refuses(&self, begun: &[u8]) -> bool
        ensures alike { result ≡ true → Refused rest sound paused self.now begun.now }
        ensures long { longest < length begun.now → result ≡ true };

    fn is_paused(&self) -> bool
        ensures { result ≡ paused self.now };
}
