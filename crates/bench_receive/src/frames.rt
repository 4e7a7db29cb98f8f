// The sum over all whole frames of an input, in one order.
ghost use Rattle.std.specs.Prelude.{◌≡◌, ◌≤◌, length};
ghost use Rattle.receiver.specs.Receiving.{receive};
ghost use Rattle.answer_sums.specs.Sums.{eight_bytes};
ghost use Rattle.bench_receive.specs.Sums.{input_sum};

use answer_sums::{Receive, eight_bytes, sum_of};
use receiver::Received;
use records::Record;

// Frames in one order.
#[derive(Clone, Copy)]
struct InOrder<'a> {
    order: &'a [u8],
}

impl Receive<7> for InOrder<'_> {
    ghost received = { λ s rec frame. receive s.order.now rec frame };

    fn receive(&self, rec: Record, frame: &[u8; 7]) -> Received {
        receiver::receive(rec, frame, self.order)
    }
}

// The sum in bytes, of an input: the order, 54 bytes, and then the frames. bench_soft has its own, with another room in its
// clause and its own receiver: what both share is `sum_of`, and one more parameter for these would be no plainer.
pub(crate) fn sum_bytes(input: &[u8]) -> [u8; 8]
    requires { length input.now ≤ 65588 }
    ensures { result ≡ eight_bytes (input_sum input.now) }
{
    let Some((order, frames)) = input.split_first_chunk::<54>() else {
        return eight_bytes(0);
    };
    let (frames, _) = frames.as_chunks::<7>();
    eight_bytes(sum_of(&InOrder { order }, frames))
}
