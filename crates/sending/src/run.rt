// A sending run after its header: it reads rows, puts them, and prints their packets.
use code::Sheet;
use runs::SendReader;
use transmit::Sender;

pub(crate) mod calls;

#[derive(Drop)]
pub struct SendRun<'w, P> {
    sheet: Sheet,
    reader: SendReader,
    sender: Sender<'w, P>,
    row: Vec<P>,
    packet: Vec<P>,
}
