// A sender's refusals, in their order, and that they leave the place as it was.
use code::{PutRefusal, Sheet};
use kinds::{Digit, Printed};
use std::process::Abort;
use transmit::{Sender, WindingSender};

const ROW: [Digit; 4] = [Digit::D1, Digit::D2, Digit::D3, Digit::D4];

// Puts a row of so many symbols, with a place of so many for its packet, over a window of so many; a refusal by its number.
fn put(rt: &impl Abort, window: usize, row: usize, place: usize) -> Result<(), u32> {
    let sheet = Sheet::new(3, 4, 2).ok().expect(rt, "no sheet");
    let mut lent = [Digit::D9; 24];
    let mut packet = [Digit::D9; 7];
    assert!(rt; window <= 24 && row <= 4 && place <= 7);
    let answer = Sender::new(sheet, &mut lent[..window])
        .put(&ROW[..row], &mut packet[..place])
        .map_err(PutRefusal::number);
    assert_eq!(rt; packet[0].number(), if answer.is_ok() { 1 } else { 9 });
    answer
}

#[test]
fn refusals(rt: HostRuntime) {
    assert_eq!(rt; put(&rt, 24, 4, 6), Ok(()));
    assert_eq!(rt; put(&rt, 23, 4, 6), Err(11));
    assert_eq!(rt; put(&rt, 0, 3, 5), Err(11));
    assert_eq!(rt; put(&rt, 24, 3, 6), Err(13));
    assert_eq!(rt; put(&rt, 24, 0, 7), Err(13));
    assert_eq!(rt; put(&rt, 24, 4, 5), Err(14));
    assert_eq!(rt; put(&rt, 24, 4, 7), Err(14));
}

// Draws tail packets until one is refused: how many were given, and the refusal's number.
fn tails(winding: &mut WindingSender<'_, Digit>) -> Option<(u32, u32)> {
    for given in 0..10 {
        let mut packet = [Digit::D9; 6];
        if let Err(refusal) = winding.tail(&mut packet) {
            return Some((given, refusal.number()));
        }
    }
    None
}

#[test]
fn six_tail_packets(rt: HostRuntime) {
    let sheet = Sheet::new(3, 4, 2).ok().expect(&rt, "no sheet");
    let mut lent = [Digit::D9; 24];
    let mut winding = Sender::new(sheet, &mut lent).wind_down();
    let given = tails(&mut winding);
    let sent = winding.end();
    assert_eq!(rt; given, Some((6, 15)));
    assert_eq!(rt; (sent.rows, sent.tails), (0, 6));
}
