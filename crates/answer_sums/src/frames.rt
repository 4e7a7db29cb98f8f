// The sum over frames that stand one after another.
ghost use Rattle.std.specs.Prelude.{◌≡◌, ℕ, ◌*◌, ◌≤◌, min, List, length};
ghost use Rattle.records.specs.declared.Record.{Record};
ghost use Rattle.records.specs.Records.{fresh};
ghost use Rattle.receiver.specs.declared.Received.{Received};
ghost use Rattle.answer_sums.specs.Sums.{sum_from};

use crate::of_answer;
use receiver::Received;
use records::{Record, fresh};

// What receives a frame of N bytes, with all that comes with it.
pub trait Receive<const N: usize> {
    // What it answers, and the record after it.
    ghost received: { Self → Record → List ℕ → Received };

    fn receive(&self, rec: Record, frame: &[u8; N]) -> Received
        ensures { result ≡ received self.now rec frame.now };
}

// All numbers that frames are answered, added up, received one after another from a fresh record on; the largest number where the
// sum is larger.
pub fn sum_of<const N: usize, R: Receive<N>>(receiver: &R, frames: &[[u8; N]]) -> u64
    ensures sum { result ≡ min (sum_from (R.received receiver.now) fresh frames.now) 18446744073709551615 }
    ensures bound { result ≤ 10000000000 * length frames.now }
{
    let mut rec = fresh();
    let mut sum: u64 = 0;
    for frame in frames {
        let received = receiver.receive(rec, frame);
        sum = sum.saturating_add(of_answer(received.answer));
        rec = received.next;
    }
    sum
}
