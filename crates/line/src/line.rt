// A symbol line over a lent window. Its places are a ring: the oldest symbol stands at the head, and the next one
// overwrites it. It has no model, since contracts speak of the window's rest and of which window it is, beside what it holds.
mod calls;

#[derive(Drop)]
pub struct SymbolLine<'w, S> {
    // lent, since an end allocates nothing
    window: &'w mut [S],
    // the line runs over so many places, from the window's first one on
    places: usize,
    head: usize,
}
