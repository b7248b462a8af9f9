// A receiver's refusals, in their order; a refused call takes no slot and leaves both places as they were.
use code::{Mark, Sheet, SlotRefusal};
use kinds::{Digit, Printed};
use receive::Receiver;
use std::process::Abort;

// Takes a packet of so many symbols, with places of so many for a row and its marks, over a window of so many; a refusal by its
// number, which is what is tested. The places are lent from arrays, as a caller lends them.
fn arrived(
    rt: &impl Abort,
    window: usize,
    packet: usize,
    row: usize,
    marks: usize,
) -> Result<(), u32> {
    let sheet = Sheet::new(3, 4, 2).ok().expect(rt, "no sheet");
    let mut lent = [Digit::D9; 72];
    let mut rows = [Digit::D9; 5];
    let mut marked = [Mark::Lost; 5];
    assert!(rt; window <= 72 && packet <= 7 && row <= 5 && marks <= 5);
    let mut receiver = Receiver::new(sheet, &mut lent[..window]);
    let answer = receiver
        .arrived(
            &[Digit::D1; 7][..packet],
            &mut rows[..row],
            &mut marked[..marks],
        )
        .map(|_| ())
        .map_err(SlotRefusal::number);
    let tally = receiver.tally();
    assert_eq!(rt; rows[0].number(), 9);
    assert_eq!(rt; marked[0].number(), 2);
    assert_eq!(rt; tally.slots, u32::from(answer.is_ok()));
    answer
}

#[test]
fn refusals(rt: HostRuntime) {
    assert_eq!(rt; arrived(&rt, 72, 6, 4, 4), Ok(()));
    assert_eq!(rt; arrived(&rt, 71, 6, 4, 4), Err(11));
    assert_eq!(rt; arrived(&rt, 0, 0, 0, 0), Err(11));
    assert_eq!(rt; arrived(&rt, 72, 5, 0, 0), Err(13));
    assert_eq!(rt; arrived(&rt, 72, 7, 4, 4), Err(13));
    assert_eq!(rt; arrived(&rt, 72, 6, 5, 4), Err(14));
    assert_eq!(rt; arrived(&rt, 72, 6, 4, 3), Err(14));
}
