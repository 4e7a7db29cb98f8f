// The calls that take a frame with a confidence for each of its places.
ghost use Rattle.std.specs.Prelude.{◌≡◌};
ghost use Rattle.receiver.specs.SoftReceiving.{soft_receive};

use crate::receiving::{refuse, step_unless_refused};
use crate::{FrameResult, Received};
use order::soft_bits;
use reading::read_soft;
use records::Record;
use refusal::Refusal;

// A frame in an order and the confidences of its places: the answer, and the record after it. Refused: 2, what is not seven
// bytes; 10, a list that is no order; 3, a frame with one of its last two bits set; 9, other than 54 confidences; 4, a record
// that is not valid.
pub fn receive_soft(rec: Record, frame: &[u8], order: &[u8], confidences: &[u8]) -> Received
    ensures { result ≡ soft_receive order.now rec frame.now confidences.now }
{
    match soft_bits(frame, order, confidences) {
        Ok(taken) => {
            let reading = read_soft(taken.bits, taken.confidences);
            step_unless_refused(rec, taken.bits % 2 == 1, reading)
        }
        Err(refusal) => refuse(rec, refusal),
    }
}

// The same, with the record changed in the caller's memory, refused likewise.
pub fn receive_soft_in_place(
    rec: &mut Record,
    frame: &[u8],
    order: &[u8],
    confidences: &[u8],
) -> Result<FrameResult, Refusal>
    ensures answer { result ≡ (soft_receive order.now rec.old frame.now confidences.now).answer }
    ensures record { rec.new ≡ (soft_receive order.now rec.old frame.now confidences.now).next }
{
    let received = receive_soft(*rec, frame, order, confidences);
    *rec = received.next;
    received.answer
}
