// Lists of logical numbers: the default order, and the test of an order.
ghost use Rattle.std.specs.Prelude.{◌≡◌, ◌<◌, true, false, MatchResult};
ghost use Rattle.order.specs.Order.{default_order, is_order};
ghost use Rattle.order.specs.Carrying.{next_place};
ghost use Rattle.order.specs.Listing.{same_numbers};
ghost use Rattle.order.specs.Tested.{numbers};

use crate::tested::{Listed, Order};
use refusal::Refusal;

// The place of the next logical bit.
fn next_place(place: usize) -> usize
    requires { place < 54 }
    ensures { result ≡ next_place place }
{
    let next = place + 7;
    if 54 <= next { next - 54 } else { next }
}

// The default order, by a place that is carried along (document 02, T-04). Nine bits are named in one loop and six of these
// name all: so a compiler unrolls both, and every entry is a constant, which it is not with one loop of 54.
pub fn default_order() -> [u8; 54]
    ensures { result ≡ default_order }
{
    let mut entries = [0; 54];
    let mut place = 0;
    for nine in 0..6 {
        for i in 0..9 {
            entries[place] = 9 * nine + i;
            place = next_place(place);
        }
    }
    entries
}

// Whether a list of 54 is the default order: all entries are compared, without an early end, so that a compiler compares many
// at once. By the place: the invariant names what is left of both lists from there on.
fn is_default(list: &[u8; 54]) -> bool
    ensures { result ≡ same_numbers list.now default_order }
{
    let default = default_order();
    let mut differ = 0;
    for (t, j) in list.iter().enumerate() {
        differ |= j ^ default[t];
    }
    differ == 0
}

// Whether each logical number stands once in a list of 54: bit j of `seen` is set where j has been seen.
fn each_once(list: &[u8; 54]) -> bool
    ensures { result ≡ is_order list.now }
{
    let mut seen: u64 = 0;
    for &j in list {
        if 54 <= j {
            return false;
        }
        seen |= 1 << j;
    }
    seen == ALL_SEEN
}

// The order in a list, unless it is none. The default order is known by one comparison, so that a call with it does not pay for
// the test that any other list needs.
pub(crate) fn tested(list: &[u8]) -> Result<Order, Refusal>
    ensures { MatchResult result (λ order. (numbers order ≡ list.now) × (is_order list.now ≡ true)) (λ f. (is_order list.now ≡ false) × (f ≡ Refusal.InvalidOrder)) }
{
    let Some(list) = list.as_array::<54>() else {
        return Err(Refusal::InvalidOrder);
    };
    if is_default(list) {
        return Ok(Order::Default);
    }
    if each_once(list) {
        return Ok(Order::Other(Listed { list }));
    }
    Err(Refusal::InvalidOrder)
}

// Whether a list is an order: 54 entries, each logical number once.
pub fn is_order(order: &[u8]) -> bool
    ensures { result ≡ is_order order.now }
{
    tested(order).is_ok()
}

// Each of the bits 0 to 53: 2 to the 54th, less 1.
const ALL_SEEN: u64 = 0x3f_ffff_ffff_ffff;
