// Receiving in place.
ghost use Rattle.std.specs.Prelude.{◌≡◌};
ghost use Rattle.receiver.specs.Receiving.{receive};
ghost use Rattle.receiver.specs.SoftReceiving.{soft_receive};

use receiver::Received;
use records::Record;

// A frame in an order into a record in place: the answer, and the record as the call leaves it.
pub(crate) fn in_place(rec: Record, frame: &[u8], order: &[u8]) -> Received
    ensures { result ≡ receive order.now rec frame.now }
{
    let mut kept = rec;
    let answer = receiver::receive_in_place(&mut kept, frame, order);
    Received { answer, next: kept }
}

// The same with a confidence for each place of the frame. Two, as the calls are: one for both would be handed the call, with a
// clause for what it leaves in the record, and is no plainer.
pub(crate) fn soft_in_place(rec: Record, frame: &[u8], order: &[u8], confidences: &[u8]) -> Received
    ensures { result ≡ soft_receive order.now rec frame.now confidences.now }
{
    let mut kept = rec;
    let answer = receiver::receive_soft_in_place(&mut kept, frame, order, confidences);
    Received { answer, next: kept }
}
