ghost use Rattle.std.specs.Prelude.{◌≡◌, ◌<◌, ◌↔◌, IsTrue, [], drop, length, false, IfOk, OnOk, OnErr};
ghost use Rattle.std.specs.Io.KnownBytes.{Consumes, IsAtEnd, Keeps};
ghost use Rattle.piping.specs.Pieces.{waiting};

use super::Piece;
use std::alloc::{AllocError, Global};
use std::io;
use std::io::Read;

impl Piece {
    pub fn new(heap: Global) -> Result<Piece, AllocError>
        ensures { IfOk result (λ piece. waiting piece ≡ []) }
    {
        let bytes = vec![in heap; 0; 65_536]?;
        Ok(Piece {
            bytes,
            from: 0,
            to: 0,
        })
    }

    // What was not taken yet.
    pub fn rest(&self) -> &[u8]
        ensures { result.now ≡ waiting self.now }
    {
        match self.bytes.as_slice().get(self.from..self.to) {
            Some(rest) => rest,
            None => &[],
        }
    }

    pub fn take(&mut self, used: usize)
        ensures { waiting self.new ≡ drop used (waiting self.old) }
    {
        self.from = self.from.saturating_add(used);
    }

    // Reads the next piece in the place of this one; false at the end of the input.
    pub fn fill<I: Read>(&mut self, input: &mut I) -> io::Result<bool>
        ensures read { OnOk result (Consumes (I.remaining input.old) (I.remaining input.new) (waiting self.new)) }
        ensures more { IfOk result (λ more. IsTrue more ↔ (0 < length (waiting self.new))) }
        ensures end { IfOk result (λ more. more ≡ false → IsAtEnd (I.remaining input.new)) }
        ensures failed { OnErr result (Keeps (I.remaining input.old) (I.remaining input.new)) }
        ensures empty { OnErr result (waiting self.new ≡ []) }
    {
        self.from = 0;
        self.to = 0;
        self.to = input.read(self.bytes.as_mut_slice())?;
        Ok(0 < self.to)
    }
}
