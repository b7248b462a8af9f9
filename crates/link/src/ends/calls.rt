ghost use Rattle.std.specs.Prelude.{◌≡◌};
ghost use Rattle.link.specs.Meeting.{Meet};
ghost use Rattle.transmit.specs.Calls.{SenderMade};
ghost use Rattle.transmit.specs.Law as sending;
ghost use Rattle.receive.specs.Calls.{ReceiverMade};
ghost use Rattle.receive.specs.Law as receiving;

use super::Ends;
use code::Sheet;
use kinds::Symbol;
use receive::Receiver;
use transmit::Sender;

impl<'s, 'r, S: Symbol> Ends<'s, 'r, S> {
    // Makes both ends, each over a window of its own.
    pub fn new(sheet: Sheet, near: &'s mut [S], far: &'r mut [S]) -> Ends<'s, 'r, S>
        ensures sender { SenderMade sheet near.old result.sender }
        ensures receiver { ReceiverMade sheet far.old result.receiver }
        ensures sends { sending.Lawful S.kind sheet near.old result.sender }
        ensures receives { receiving.Lawful S.kind sheet far.old result.receiver }
        ensures meet { Meet S.kind sheet result.sender }
    {
        Ends {
            sender: Sender::new(sheet, near),
            receiver: Receiver::new(sheet, far),
        }
    }
}
