ghost use Rattle.std.specs.Prelude.{◌≡◌, [], ◌∷◌, map, length, drop, replicate, slice_index_or};
ghost use Rattle.std.specs.List.{range_with_len};
ghost use Rattle.line.specs.Ring.{entered, look, symbol_back, stretch, added, Start, Piece};
ghost use Rattle.line.specs.Line.{ring, contents, beyond, fitting, Stays};

use super::SymbolLine;
use crate::zeros::clear;
use kinds::Symbol;

// So many places, or none where the window is shorter.
fn fit(places: usize, window: usize) -> usize
    ensures { result ≡ fitting places window }
{
    if places <= window { places } else { 0 }
}

// The place of the oldest symbol in a ring of `len` places: a head past the end stands for the first place.
fn oldest(len: usize, head: usize) -> usize
    ensures { Start len head result }
{
    if head < len { head } else { 0 }
}

impl<'w, S: Symbol> SymbolLine<'w, S> {
    // A line over a whole window, which reads as zeros.
    pub fn new(window: &'w mut [S]) -> SymbolLine<'w, S>
        ensures held { contents result ≡ replicate (length window.old) S.kind.zero }
        ensures same { result.window.ghost_name ≡ window.entry.ghost_name }
    {
        let places = window.len();
        SymbolLine::over(window, places)
    }

    // A line over the first `places` places of a window, or over none where it is shorter. What lies past them stays.
    pub fn over(window: &'w mut [S], places: usize) -> SymbolLine<'w, S>
        ensures places { result.places ≡ fitting places (length window.old) }
        ensures held { contents result ≡ replicate (fitting places (length window.old)) S.kind.zero }
        ensures past { beyond result ≡ drop (fitting places (length window.old)) window.old }
        ensures long { length result.window.now ≡ length window.old }
        ensures same { result.window.ghost_name ≡ window.entry.ghost_name }
    {
        let places = fit(places, window.len());
        clear(&mut window[..places]);
        SymbolLine {
            window,
            places,
            head: 0,
        }
    }

    // How many symbols the line holds.
    pub fn len(&self) -> usize
        ensures { result ≡ length (contents self.now) }
    {
        self.places.min(self.window.len())
    }

    // The window's places that the line runs over.
    fn ring(&self) -> &[S]
        ensures { result.now ≡ ring self.now }
    {
        &self.window[..self.len()]
    }

    // One symbol goes in.
    pub fn push(&mut self, symbol: S)
        ensures held { contents self.new ≡ entered (symbol ∷ []) (contents self.old) }
        ensures kept { Stays self.old self.new }
    {
        let len = self.len();
        if len == 0 {
            return;
        }
        let start = oldest(len, self.head);
        self.window[start] = symbol;
        self.head = start + 1;
    }

    // The symbols go in, the first one first, a piece at a time.
    pub fn push_all(&mut self, symbols: &[S])
        ensures held { contents self.new ≡ entered symbols.now (contents self.old) }
        ensures kept { Stays self.old self.new }
    {
        let len = self.len();
        if len == 0 {
            return;
        }
        let mut rest = symbols;
        while !rest.is_empty() {
            let start = oldest(len, self.head);
            let size = rest.len().min(len - start);
            let (piece, later) = rest.split_at(size);
            self.window[start..start + size].copy_from_slice(piece);
            self.head = start + size;
            rest = later;
        }
    }

    // So many zeros go in. The loop is that of `push_all`: one function for both would take a closure that writes a piece,
    // under a contract as long as the loop.
    pub fn push_zeros(&mut self, count: usize)
        ensures held { contents self.new ≡ entered (replicate count S.kind.zero) (contents self.old) }
        ensures kept { Stays self.old self.new }
    {
        let len = self.len();
        if len == 0 {
            return;
        }
        let mut left = count;
        while left > 0 {
            let start = oldest(len, self.head);
            let size = left.min(len - start);
            clear(&mut self.window[start..start + size]);
            self.head = start + size;
            left -= size;
        }
    }

    // Where the `size` symbols that begin `steps` back lie in the ring, if they lie in one piece.
    fn piece(&self, steps: usize, size: usize) -> Option<usize>
        ensures { Piece (length (ring self.now)) self.now.head steps size result }
    {
        let len = self.len();
        if size > steps || steps > len {
            return None;
        }
        let start = oldest(len, self.head);
        if steps <= start {
            Some(start - steps)
        } else if size <= steps - start {
            Some((len - steps) + start)
        } else {
            None
        }
    }

    // The symbol that went in so many symbols ago, 1 being the latest.
    pub fn back(&self, steps: usize) -> Option<S>
        ensures { result ≡ look (contents self.now) steps }
    {
        if steps == 0 {
            return None;
        }
        let at = self.piece(steps, 1)?;
        Some(self.ring()[at])
    }

    // The same, and zero where there is none.
    pub fn back_or_zero(&self, steps: usize) -> S
        ensures { result ≡ symbol_back S.kind.zero (contents self.now) steps }
    {
        self.back(steps).unwrap_or(S::zero())
    }

    // Writes the symbols that begin `steps` back into a place, in the order in which they went in.
    #[tactic(auto, using(crate::proofs::Rings::piece_stretch))]
    pub fn copy_back(&self, steps: usize, place: &mut [S])
        ensures { place.new ≡ stretch S.kind.zero (contents self.now) steps (length place.old) }
    {
        match self.piece(steps, place.len()) {
            Some(at) => place.copy_from_slice(&self.ring()[at..at + place.len()]),
            None => self.copy_each(steps, place),
        }
    }

    // The same, one symbol at a time.
    #[tactic(auto, using(crate::proofs::Filling::filled_more))]
    fn copy_each(&self, steps: usize, place: &mut [S])
        ensures { place.new ≡ stretch S.kind.zero (contents self.now) steps (length place.old) }
    {
        for (i, symbol) in place.iter_mut().enumerate() {
            *symbol = self.back_or_zero(steps.saturating_sub(i));
        }
    }

    // Adds those symbols to what a place holds.
    pub fn add_back(&self, steps: usize, place: &mut [S])
        ensures { place.new ≡ added S.kind (contents self.now) steps place.old }
    {
        match self.piece(steps, place.len()) {
            Some(at) => add_piece(&self.ring()[at..at + place.len()], place),
            None => self.add_each(steps, place),
        }
    }

    // The same, one symbol at a time. Beside `copy_each`: one for both would take a
    // closure for the one line in which they differ.
    #[tactic(auto, using(crate::proofs::Filling::filled_more, crate::proofs::Filling::filled_read))]
    fn add_each(&self, steps: usize, place: &mut [S])
        ensures { place.new ≡ added S.kind (contents self.now) steps place.old }
    {
        for (i, sum) in place.iter_mut().enumerate() {
            *sum = self.back_or_zero(steps.saturating_sub(i)).sum(*sum);
        }
    }

    // Gives the window back.
    pub fn end(self) -> &'w mut [S]
        ensures held { result.now ≡ self.entry.window.now }
        ensures same { result.ghost_name ≡ self.entry.window.ghost_name }
    {
        self.window
    }
}

// Adds symbol by symbol. By index, since of what a loop over a zip with `iter_mut` writes nothing would be known.
#[tactic(auto, using(crate::proofs::Filling::filled_more, crate::proofs::Filling::filled_read))]
fn add_piece<S: Symbol>(symbols: &[S], place: &mut [S])
    requires { length symbols.now ≡ length place.old }
    ensures { place.new ≡ map (λ i. S.kind.sum (slice_index_or symbols.now i S.kind.zero) (slice_index_or place.old i S.kind.zero)) (range_with_len 0 (length place.old)) }
{
    for (i, sum) in place.iter_mut().enumerate() {
        *sum = symbols[i].sum(*sum);
    }
}
