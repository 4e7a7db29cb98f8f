// Packing: a parameter set and a sync bit into the seven bytes of a frame.
ghost use Rattle.std.specs.Prelude.{◌≡◌, length};
ghost use Rattle.frame.specs.Packing.{fresh_sync, pack_answer, pack_writes, set_refusal};

use crate::layout::logical_number;
use order::{is_order, place_bits};
use refusal::Refusal;
use sets::{ParameterSet, is_sendable};

// The sync bit of a sender that has packed no frame.
pub fn fresh_sync() -> bool
    ensures { result ≡ fresh_sync }
{
    false
}

// What refuses a set that no sender takes, by the list lent with it, which goes before the set.
fn set_refusal(order: &[u8]) -> Refusal
    ensures { result ≡ set_refusal order.now }
{
    if is_order(order) {
        Refusal::OutOfRange
    } else {
        Refusal::InvalidOrder
    }
}

// The frame of a set in an order, a list of the 54 logical numbers by place, into the front of `out`; `sync` is the sender's
// state, and the answer is the next one. Refused: 1, an output of fewer than seven bytes; 10, a list that is no order; 5, a
// set that no sender takes.
pub fn pack(set: ParameterSet, sync: bool, order: &[u8], out: &mut [u8]) -> Result<bool, Refusal>
    ensures answer { result ≡ pack_answer order.now set sync (length out.old) }
    ensures written { out.new ≡ pack_writes order.now set sync out.old }
{
    if out.len() < 7 {
        return Err(Refusal::ShortOutput);
    }
    if !is_sendable(set) {
        return Err(set_refusal(order));
    }
    let bytes = place_bits(logical_number(set, sync), order)?;
    out[..7].copy_from_slice(&bytes);
    Ok(!sync)
}
