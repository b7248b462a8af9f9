// Looking back into a line.
use kinds::{Digit, Printed};
use line::SymbolLine;

// The number of the symbol so many steps back.
fn back(line: &SymbolLine<'_, Digit>, steps: usize) -> Option<u32> {
    line.back(steps).map(|digit| digit.number())
}

#[test]
fn three_places(rt: HostRuntime) {
    let mut window = [Digit::D9; 3];
    let mut line = SymbolLine::new(&mut window);
    assert_eq!(rt; back(&line, 1), Some(0));
    assert_eq!(rt; back(&line, 3), Some(0));
    line.push(Digit::D1);
    line.push(Digit::D2);
    assert_eq!(rt; back(&line, 0), None);
    assert_eq!(rt; back(&line, 1), Some(2));
    assert_eq!(rt; back(&line, 2), Some(1));
    assert_eq!(rt; back(&line, 3), Some(0));
    assert_eq!(rt; back(&line, 4), None);
    line.push_all(&[Digit::D3, Digit::D4]);
    assert_eq!(rt; back(&line, 1), Some(4));
    assert_eq!(rt; back(&line, 3), Some(2));
}

#[test]
fn no_places(rt: HostRuntime) {
    let mut window = [Digit::D9; 0];
    let mut line = SymbolLine::new(&mut window);
    line.push(Digit::D1);
    assert_eq!(rt; back(&line, 0), None);
    assert_eq!(rt; back(&line, 1), None);
}
