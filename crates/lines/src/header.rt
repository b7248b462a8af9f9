// The header of a run: the kind of its symbols, and its sheet.
use code::Sheet;

// The kinds that have a letter: B for bytes, D for digits.
#[derive(Clone, Copy, Debug, PartialEq, Eq)]
pub enum SymbolKind {
    Bytes,
    Digits,
}

#[derive(Clone, Copy, Debug, PartialEq, Eq)]
pub struct Header {
    pub kind: SymbolKind,
    pub sheet: Sheet,
}
