// Vectors of packing.
use crate::orders::order_of;
use crate::vector::{Vector, joined, refused};
use refusal::Refusal;
use sets::ParameterSet;

// What each byte of an output holds before a call.
pub(crate) const HELD: u8 = 165;

// Whether the refusal and the next sync bit are those in bytes 14 and 15, and the output afterwards is the one in bytes 16
// to 31.
fn packed_agrees(vector: &Vector, answer: Result<bool, Refusal>, out: &[u8; 16]) -> bool {
    let next = u8::from(answer.unwrap_or(false));
    (vector.number(14, 2) == joined(0, refused(answer), next)) & vector.bytes_agree(16, out)
}

// Kind 1: packing.
pub(crate) fn pack_agrees(vector: &Vector, set: ParameterSet) -> bool {
    let room = vector.number(13, 1);
    if 16 < room {
        return false;
    }
    let mut out = [HELD; 16];
    let answer = frame::pack(
        set,
        vector.byte(12) == 1,
        order_of(vector),
        &mut out[..room],
    );
    packed_agrees(vector, answer, &out)
}
