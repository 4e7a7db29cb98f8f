// What the receiver makes of each frame, and its line.
ghost use Rattle.std.specs.Prelude.{◌≡◌, suc, ◌+◌, ◌≤◌, ◌<◌, length};
ghost use Rattle.order.specs.Order.{default_order};
ghost use Rattle.records.specs.Records.{fresh};
ghost use Rattle.refusal.specs.Refusals.{number_of, numbered};
ghost use Rattle.report.specs.Lines.{frame_line};
ghost use Rattle.text.specs.Placing.{Appended};
ghost use Rattle.receiver.specs.Receiving.{receive};
ghost use Rattle.hear.specs.Call.{repeat_of};

use crate::output::{Sent, nothing};
use receiver::{FrameResult, Kind, Received};
use records::Record;
use refusal::Refusal;
use text::end_of;

// How far a call is received: the receiver's record, how many frames were repeats, how many bytes of the text are
// sent, and where the others end in the buffer. The buffer stays beside it: a struct that lends it would need a clause in each
// step, that it still lends the same one.
#[derive(Clone, Copy)]
pub(crate) struct Progress {
    pub(crate) rec: Record,
    pub(crate) repeats: u64,
    pub(crate) sent: Sent,
    pub(crate) end: usize,
}

// Before the first frame: a fresh receiver, and nothing is sent.
pub(crate) fn begin(end: usize) -> Progress
    ensures record { result.rec ≡ fresh }
    ensures repeats { result.repeats ≡ 0 }
    ensures sent { result.sent.count ≡ 0 }
    ensures end { result.end ≡ end }
{
    Progress {
        rec: records::fresh(),
        repeats: 0,
        sent: nothing(),
        end,
    }
}

// 1 for a repeat, 0 for any other answer.
fn repeat_of(answer: Result<FrameResult, Refusal>) -> u64
    ensures equal { result ≡ repeat_of answer }
    ensures bound { result ≤ 1 }
{
    u64::from(answer.is_ok_and(|res| matches!(res.kind, Kind::Repeat)))
}

// Frame k: the receiver takes it, and its line is written.
pub(crate) fn take_frame(before: Progress, k: usize, frame: &[u8; 7], out: &mut [u8]) -> Progress
    requires k_in_bounds { (k < 9362) × (before.repeats ≤ k) }
    requires room { before.end + 144 ≤ length out.old }
    ensures record { result.rec ≡ (receive default_order before.rec frame.now).next }
    ensures repeats { result.repeats ≡ before.repeats + repeat_of (receive default_order before.rec frame.now).answer }
    ensures count { result.repeats ≤ suc k }
    ensures sent { result.sent.count ≡ before.sent.count }
    ensures line { Appended out.old before.end (frame_line k (numbered number_of (receive default_order before.rec frame.now).answer)) out.new result.end }
    ensures bound { result.end ≤ before.end + 144 }
{
    let order = order::default_order();
    let Received { answer, next } = receiver::receive(before.rec, frame, &order);
    Progress {
        rec: next,
        repeats: before.repeats + repeat_of(answer),
        end: end_of(
            report::frame_line(k as u64, answer, out, before.end),
            before.end,
        ),
        ..before
    }
}
