// What one answer adds to the sum: all its numbers. The bounds are those of their types.
ghost use Rattle.std.specs.Prelude.{◌≡◌, ◌≤◌};
ghost use Rattle.refusal.specs.Refusals.{numbered};
ghost use Rattle.answer_sums.specs.Sums.{indices_sum, voicing_sum, set_sum, kind_sum, result_sum, answer_sum};

use receiver::{FrameResult, Kind};
use refusal::Numbered;
use sets::{Indices, ParameterSet, Voicing};

// The indices of a set.
fn of_indices(x: Indices) -> u64
    ensures number { result ≡ indices_sum x }
    ensures bound { result ≤ 1530 }
{
    u64::from(x.l1)
        + u64::from(x.l2)
        + u64::from(x.l3)
        + u64::from(x.l4)
        + u64::from(x.g2)
        + u64::from(x.g1)
}

// What a voiced set has more.
fn of_voicing(v: Voicing) -> u64
    ensures number { result ≡ voicing_sum v }
    ensures bound { result ≤ 1020 }
{
    u64::from(v.pitch) + u64::from(v.bandpass) + u64::from(v.fourier) + u64::from(v.aperiodic)
}

// A set: all its numbers.
fn of_set(set: ParameterSet) -> u64
    ensures number { result ≡ set_sum set }
    ensures bound { result ≤ 2550 }
{
    match set {
        ParameterSet::Unvoiced(x) => of_indices(x),
        ParameterSet::Voiced(x, v) => of_indices(x) + of_voicing(v),
    }
}

// A kind: 0, 1 or 2, as `kind_sum` says, and not by the place of a variant in the receiver's type.
fn of_kind(kind: Kind) -> u64
    ensures number { result ≡ kind_sum kind }
    ensures bound { result ≤ 2 }
{
    match kind {
        Kind::Unvoiced => 0,
        Kind::Voiced => 1,
        Kind::Repeat => 2,
    }
}

// A result: all its numbers.
fn of_result(res: FrameResult) -> u64
    ensures number { result ≡ result_sum res }
    ensures bound { result ≤ 10000000000 }
{
    let levels = u64::from(res.first) + u64::from(res.second);
    let flags = u64::from(res.mute) + u64::from(res.sync);
    of_kind(res.kind) + of_set(res.set) + levels + flags + u64::from(res.repaired)
}

// An answer: the numbers of its result, or its refusal.
pub fn of_answer<E: Numbered>(answer: Result<FrameResult, E>) -> u64
    ensures number { result ≡ answer_sum (numbered E.number answer) }
    ensures bound { result ≤ 10000000000 }
{
    match answer {
        Ok(res) => of_result(res),
        Err(refusal) => u64::from(refusal.number()),
    }
}
