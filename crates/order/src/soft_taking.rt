// The 54 logical bits of a frame in an order, each with the confidence of its place.
ghost use Rattle.std.specs.Prelude.{◌≡◌};
ghost use Rattle.bits.specs.Bits.{cut};
ghost use Rattle.order.specs.Order.{default_order};
ghost use Rattle.order.specs.SoftTaking.{confidence_of, soft_bits};

use crate::SoftBits;
use crate::taking::taken;
use crate::tested::{Listed, Order};
use refusal::Refusal;

// The confidence of each logical bit in the default order. Nine are found in one loop and six of these find all, as in
// `default_order`: so the places are constants.
fn default_confidences(confidences: &[u8; 54]) -> [u8; 54]
    ensures { result ≡ cut (confidence_of default_order confidences.now) 0 54 }
{
    let mut found = [0; 54];
    for nine in 0..6 {
        for i in 0..9 {
            let j = 9 * nine + i;
            found[j] = confidences[7 * j % 54];
        }
    }
    found
}

// In any order: place after place, the confidence there goes to the bit that the order names. By the place: the invariant is
// about the places before it.
fn each_confidence(confidences: &[u8; 54], order: Listed) -> [u8; 54]
    ensures { result ≡ cut (confidence_of order.entry.list.now confidences.now) 0 54 }
{
    let list = order.list;
    let mut found = [0; 54];
    for (t, &j) in list.iter().enumerate() {
        found[usize::from(j)] = confidences[t];
    }
    found
}

// The logical bits of a frame and their confidences. Refused: 2, what is not seven bytes; 10, a list that is no order; 3, a
// frame with one of its last two bits set; 9, other than 54 confidences.
pub fn soft_bits(frame: &[u8], order: &[u8], confidences: &[u8]) -> Result<SoftBits, Refusal>
    ensures { result ≡ soft_bits order.now frame.now confidences.now }
{
    let (bits, order) = taken(frame, order)?;
    let Some(confidences) = confidences.as_array::<54>() else {
        return Err(Refusal::ConfidenceCount);
    };
    let confidences = match order {
        Order::Default => default_confidences(confidences),
        Order::Other(order) => each_confidence(confidences, order),
    };
    Ok(SoftBits { bits, confidences })
}
