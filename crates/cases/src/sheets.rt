// Which numbers make a sheet.
use code::{Sheet, SheetRefusal};
use kinds::{Byte, Digit, Printed, Symbol};

// The delay of the sheet that was made, or the refusal's number, since the numbers are what is tested.
fn made(burst: u32, row: u32, parity: u32) -> Result<u32, u32> {
    Sheet::new(burst, row, parity)
        .map(|sheet| sheet.delay)
        .map_err(SheetRefusal::number)
}

#[test]
fn limits(rt: HostRuntime) {
    assert_eq!(rt; made(3, 4, 2), Ok(6));
    assert_eq!(rt; made(32, 48, 6), Ok(256));
    assert_eq!(rt; made(1, 1, 16), Ok(1));
    assert_eq!(rt; made(0, 0, 0), Err(7));
    assert_eq!(rt; made(33, 4, 2), Err(7));
    assert_eq!(rt; made(3, 0, 0), Err(8));
    assert_eq!(rt; made(3, 49, 17), Err(8));
    assert_eq!(rt; made(3, 4, 0), Err(9));
    assert_eq!(rt; made(32, 48, 17), Err(9));
    assert_eq!(rt; made(32, 48, 5), Err(10));
    assert_eq!(rt; made(u32::MAX, u32::MAX, u32::MAX), Err(7));
}

#[test]
fn sums(rt: HostRuntime) {
    assert_eq!(rt; Byte::new(200).sum(Byte::new(77)).value, 133);
    assert_eq!(rt; Byte::new(133).difference(Byte::new(77)).value, 200);
    assert_eq!(rt; Digit::D7.sum(Digit::D5).number(), 2);
    assert_eq!(rt; Digit::D2.difference(Digit::D5).number(), 7);
}
