// The sum over all whole frames of an input, each with its confidences, in one order.
ghost use Rattle.std.specs.Prelude.{◌≡◌, ◌≤◌, length};
ghost use Rattle.answer_sums.specs.Sums.{eight_bytes};
ghost use Rattle.bench_soft.specs.SoftFrames.{received, input_sum};

use answer_sums::{Receive, eight_bytes, sum_of};
use receiver::Received;
use records::Record;

// Frames in one order, each with its 54 confidences after it.
#[derive(Clone, Copy)]
struct InOrder<'a> {
    order: &'a [u8],
}

impl Receive<61> for InOrder<'_> {
    ghost received = { λ s rec bytes. received s.order.now rec bytes };

    fn receive(&self, rec: Record, bytes: &[u8; 61]) -> Received {
        let (frame, confidences) = bytes.split_at(7);
        receiver::receive_soft(rec, frame, self.order, confidences)
    }
}

// The sum in bytes, of an input: the order, 54 bytes, and then the frames. bench_receive has its own, with another room in its
// clause and its own receiver: what both share is `sum_of`, and one more parameter for these would be no plainer.
pub(crate) fn sum_bytes(input: &[u8]) -> [u8; 8]
    requires { length input.now ≤ 65568 }
    ensures { result ≡ eight_bytes (input_sum input.now) }
{
    let Some((order, frames)) = input.split_first_chunk::<54>() else {
        return eight_bytes(0);
    };
    let (frames, _) = frames.as_chunks::<61>();
    eight_bytes(sum_of(&InOrder { order }, frames))
}
