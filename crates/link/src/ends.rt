// A sender and a receiver on one sheet.
use receive::Receiver;
use transmit::Sender;

mod calls;

#[derive(Drop)]
pub struct Ends<'s, 'r, S> {
    pub sender: Sender<'s, S>,
    pub receiver: Receiver<'r, S>,
}
