// The calls that take a frame.
ghost use Rattle.std.specs.Prelude.{◌≡◌, true, Err};
ghost use Rattle.refusal.specs.Refusals.{first_refusal};
ghost use Rattle.reading.specs.Reading.{reading_fits};
ghost use Rattle.receiver.specs.Receiving.{record_table, receive};
ghost use Rattle.receiver.specs.Steps.{step_unless};

use crate::valid::ValidRecord;
use crate::{FrameResult, Received};
use order::logical_bits;
use reading::{Accepted, read};
use records::{Record, is_valid};
use refusal::Refusal;

// A refusal, and the record as it is.
pub(crate) fn refuse(rec: Record, refusal: Refusal) -> Received
    ensures { result ≡ record { answer = Err refusal; next = rec } }
{
    Received {
        answer: Err(refusal),
        next: rec,
    }
}

// A frame by what its bits are read as, where the record is valid; one that is not is refused. That what was read is in range
// is asked here and is no field of `Accepted`: that type is public, and others make it.
pub(crate) fn step_unless_refused(rec: Record, sync: bool, reading: Option<Accepted>) -> Received
    requires { reading_fits reading ≡ true }
    ensures { result ≡ step_unless (first_refusal (record_table rec)) rec sync reading }
{
    if is_valid(rec) {
        ValidRecord { rec }.step(sync, reading)
    } else {
        refuse(rec, Refusal::InvalidRecord)
    }
}

// A frame in an order, a list of the 54 logical numbers by place: the answer, and the record after it. Refused: 2, what is not
// seven bytes; 10, a list that is no order; 3, a frame with one of its last two bits set; 4, a record that is not valid.
pub fn receive(rec: Record, frame: &[u8], order: &[u8]) -> Received
    ensures { result ≡ receive order.now rec frame.now }
{
    match logical_bits(frame, order) {
        Ok(bits) => step_unless_refused(rec, bits % 2 == 1, read(bits)),
        Err(refusal) => refuse(rec, refusal),
    }
}

// The same, with the record changed in the caller's memory, refused likewise. `receive_soft_in_place` has the same lines: one
// function for both would be handed the record beside what was received, and is no plainer.
pub fn receive_in_place(
    rec: &mut Record,
    frame: &[u8],
    order: &[u8],
) -> Result<FrameResult, Refusal>
    ensures answer { result ≡ (receive order.now rec.old frame.now).answer }
    ensures record { rec.new ≡ (receive order.now rec.old frame.now).next }
{
    let received = receive(*rec, frame, order);
    *rec = received.next;
    received.answer
}
