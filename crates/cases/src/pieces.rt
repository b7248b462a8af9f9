// Inputs in pieces, and what is written of them.
use piping::{Piece, in_pieces, pipe, pump_from};
use send_filter::{SendOpening, Sending};
use std::io;
use std::io::BufRead;
use std::test::Fail;
use stream::LineFeed;

#[test]
fn a_piece_of_an_input(rt: HostRuntime) -> io::Result<()> {
    let mut input = in_pieces(rt.alloc(), "HD   1   1   1\n".as_bytes())?;
    assert_eq!(rt; input.fill_buf()?, "HD   1   1   1\n".as_bytes());
    input.consume(15);
    assert!(rt; input.fill_buf()?.is_empty());
    Ok(())
}

#[test]
fn a_piece_by_hand(rt: HostRuntime) -> Result<(), Fail> {
    let mut input = "HD   1   1   1\n".as_bytes();
    let mut piece = Piece::new(rt.alloc())?;
    assert!(rt; piece.rest().is_empty());
    assert!(rt; piece.fill(&mut input)?);
    piece.take(5);
    assert_eq!(rt; piece.rest(), "1   1   1\n".as_bytes());
    assert!(rt; !piece.fill(&mut input)?);
    assert!(rt; piece.rest().is_empty());
    Ok(())
}

#[test]
fn an_input_behind_what_is_held(rt: HostRuntime) -> Result<(), Fail> {
    let heap = rt.alloc();
    let mut run = SendOpening::new();
    let mut feed = LineFeed::new(heap);
    let mut printed = Vec::new(heap);
    assert_eq!(rt; feed.feed(&mut run, b"HD   1", &mut printed)?, 6);
    printed.extend_from_slice(b"before\n")?;
    let mut input = in_pieces(heap, "   1   1\nR       0 7\n".as_bytes())?;
    let mut output = Vec::new(heap);
    pump_from(&mut input, &mut feed, &mut run, &mut printed, &mut output)?;
    assert_eq!(rt; output.as_slice(), b"before\nHD   1   1   1\n".as_slice());
    assert!(rt; printed.is_empty());
    assert_eq!(rt; input.fill_buf()?, "R       0 7\n".as_bytes());
    Ok(())
}

#[test]
fn a_whole_input(rt: HostRuntime) -> Result<(), Fail> {
    let heap = rt.alloc();
    let mut output = Vec::new(heap);
    pipe::<Sending, _, _>(
        heap,
        "HD   1   1   1\nR       0 7\n".as_bytes(),
        &mut output,
    )?;
    assert_eq!(rt;
        output.as_slice(),
        b"HD   1   1   1\nA       0 7 0\nA       1 0 7\n".as_slice()
    );
    Ok(())
}
