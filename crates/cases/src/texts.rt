// What begins with a header: the functions that need memory, each where there is enough.
use code::Sheet;
use kinds::Digit;
use lines::{WriteRefusal, write_row};
use opening::{feed_whole, text_of};
use piping::{in_pieces, pump_to_end};
use runs::print_with;
use send_filter::{SendOpening, Sending};
use std::test::Fail;
use stream::LineRun;

const LIST: &[u8] = b"HD   1   1   1\nR       0 7\nR       1 4\n";

const SENT: &[u8] = b"HD   1   1   1\nA       0 7 0\nA       1 4 7\nA       2 0 4\n";

#[test]
fn a_line_behind_another(rt: HostRuntime) -> Result<(), Fail> {
    let sheet = Sheet::new(1, 1, 1)?;
    let mut out = Vec::new(rt.alloc());
    print_with(12, |line| write_row(line, sheet, 0, &[Digit::D7]), &mut out)?;
    print_with(12, |line| write_row(line, sheet, 1, &[Digit::D4]), &mut out)?;
    assert_eq!(rt; out.as_slice(), b"R       0 7\nR       1 4\n".as_slice());
    print_with(12, |_line| Err(WriteRefusal::Number), &mut out)?;
    assert_eq!(rt; out.len(), 24);
    Ok(())
}

#[test]
fn a_header_read(rt: HostRuntime) -> Result<(), Fail> {
    let mut out = Vec::new(rt.alloc());
    let mut opening = SendOpening::new();
    assert_eq!(rt; opening.open(rt.alloc(), LIST, &mut out)?, 15);
    assert_eq!(rt; out.as_slice(), &LIST[..15]);
    assert!(rt; opening.header().is_some());
    Ok(())
}

#[test]
fn a_text_of_no_line(rt: HostRuntime) -> Result<(), Fail> {
    let mut out = Vec::new(rt.alloc());
    let mut opening = SendOpening::new();
    assert_eq!(rt; feed_whole(rt.alloc(), &mut opening, b"", &mut out)?, 0);
    assert!(rt; !opening.is_paused());
    opening.end(&mut out)?;
    assert_eq!(rt; out.as_slice(), b"X       1   1   1\n".as_slice());
    Ok(())
}

#[test]
fn a_whole_text(rt: HostRuntime) -> Result<(), Fail> {
    assert_eq!(rt; text_of::<Sending>(rt.alloc(), LIST)?.as_slice(), SENT);
    Ok(())
}

#[test]
fn an_input_to_its_header(rt: HostRuntime) -> Result<(), Fail> {
    let heap = rt.alloc();
    let mut input = in_pieces(heap, LIST)?;
    let mut output = Vec::new(heap);
    let header = pump_to_end(
        heap,
        SendOpening::new(),
        &mut input,
        &mut output,
        |opening, _printed| Ok(opening.header()),
    )?;
    assert!(rt; header.is_some());
    assert_eq!(rt; output.as_slice(), &LIST[..15]);
    Ok(())
}
