// How the symbols of a kind stand in a line of text: the kind's letter, the width of a symbol's field, and the largest
// number that a symbol has.
#[derive(Clone, Copy)]
pub struct Layout {
    pub letter: char,
    pub width: usize,
    pub top: u32,
}
