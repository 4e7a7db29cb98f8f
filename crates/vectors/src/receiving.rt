// Vectors of receiving.
use crate::in_place::{in_place, soft_in_place};
use crate::orders::order_of;
use crate::state::{record_agrees, record_of};
use crate::vector::{Vector, joined, refused};
use receiver::{FrameResult, Kind, Received};
use records::Record;
use refusal::Refusal;
use sets::ParameterSet;

// The number of a result's kind, as the files of vectors have it; no `From`, since neither type is of this crate.
fn number_of(kind: Kind) -> u8 {
    match kind {
        Kind::Unvoiced => 0,
        Kind::Voiced => 1,
        Kind::Repeat => 2,
    }
}

// Whether both levels are those in bytes 39 to 42. By `as`, since std has no `From` of a u32 for a usize.
fn levels_agree(vector: &Vector, first: u32, second: u32) -> bool {
    (vector.number(39, 2) == first as usize) & (vector.number(41, 2) == second as usize)
}

// Whether mute, the sync bit and the repaired count are those in bytes 43 to 45.
fn marks_agree(vector: &Vector, mute: bool, sync: bool, repaired: u8) -> bool {
    vector.number(43, 3) == joined(u8::from(mute), u8::from(sync), repaired)
}

// Whether the result is the one in bytes 27 to 45.
fn result_agrees(vector: &Vector, res: FrameResult) -> bool {
    (vector.byte(27) == number_of(res.kind))
        & vector.set_agrees(28, res.set)
        & levels_agree(vector, res.first, res.second)
        & marks_agree(vector, res.mute, res.sync, res.repaired)
}

// Whether the answer is the one in bytes 26 to 45; of a refusal there is only its number.
fn answer_agrees(vector: &Vector, answer: Result<FrameResult, Refusal>) -> bool {
    (vector.byte(26) == refused(answer)) & answer.map_or(true, |res| result_agrees(vector, res))
}

// Receiving: the frame, the order and at most 56 confidences; the answer, and the record after it.
fn receive_agrees<F: FnOnce(Record, &[u8], &[u8], &[u8]) -> Received>(
    vector: &Vector,
    last: ParameterSet,
    receive: F,
) -> bool
    requires { F.IsAlwaysCallable receive }
{
    let size = vector.number(16, 1);
    let count = vector.number(61, 1);
    let received = receive(
        record_of(vector, last),
        vector.part(17, size),
        order_of(vector),
        vector.part(62, count),
    );
    (size <= 9)
        & (count <= 56)
        & answer_agrees(vector, received.answer)
        & record_agrees(vector, 46, received.next)
}

// Kind 9: by value. It takes no confidences.
pub(crate) fn by_value_agrees(vector: &Vector, last: ParameterSet) -> bool {
    receive_agrees(vector, last, |rec, frame, order, _| {
        receiver::receive(rec, frame, order)
    })
}

// Kind 22: in place. It takes no confidences.
pub(crate) fn in_place_agrees(vector: &Vector, last: ParameterSet) -> bool {
    receive_agrees(
        vector,
        last,
        |rec, frame, order, _| in_place(rec, frame, order),
    )
}

// Kind 32: by value with confidences.
pub(crate) fn soft_agrees(vector: &Vector, last: ParameterSet) -> bool {
    receive_agrees(
        vector,
        last,
        |rec, frame, order, confidences| receiver::receive_soft(rec, frame, order, confidences),
    )
}

// Kind 33: in place with confidences.
pub(crate) fn soft_in_place_agrees(vector: &Vector, last: ParameterSet) -> bool {
    receive_agrees(vector, last, soft_in_place)
}
