// A mending run after its header: it reads slots, takes them, and prints the rows that fall due. What it has in common with a sending
// run is the trait `LineRun`.
use code::{Mark, Sheet};
use receive::Receiver;
use runs::MendReader;

pub(crate) mod calls;

#[derive(Drop)]
pub struct MendRun<'w, P> {
    sheet: Sheet,
    reader: MendReader,
    receiver: Receiver<'w, P>,
    packet: Vec<P>,
    row: Vec<P>,
    marks: Vec<Mark>,
}
