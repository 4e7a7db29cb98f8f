// The 54 logical bits of a frame in an order.
ghost use Rattle.std.specs.Prelude.{◌≡◌, ◌^◌, ◌<◌, MatchResult};
ghost use Rattle.bits.specs.Bits.{value, cut, carried};
ghost use Rattle.order.specs.Order.{default_order, place_of, bit_at};
ghost use Rattle.order.specs.Taking.{OneNamed, bits_answer};
ghost use Rattle.order.specs.Tested.{numbers};

use crate::list::tested;
use crate::tested::{Listed, Order};
use refusal::Refusal;

// The 56 places of seven bytes as one number, place 0 the most significant bit. Four bytes, and two, are what a processor loads
// at once.
fn placed_bits(frame: &[u8; 7]) -> u64
    ensures { result ≡ value (cut (bit_at frame.now) 0 56) }
{
    let [a, b, c, d, e, f, g] = *frame;
    let four = u64::from(u32::from_be_bytes([a, b, c, d]));
    let two = u64::from(u16::from_be_bytes([e, f]));
    (four * 65536 + two) * 256 + u64::from(g)
}

// The 54 logical bits in the default order, from their places. Those that stand as far from where they go move together, by a
// shift and a mask.
fn gather(placed: u64) -> u64
    ensures { result ≡ value (cut (λ j. carried 56 placed (place_of default_order j)) 0 54) }
{
    ((placed << 40) & 0x400000000000)
        | ((placed << 34) & 0x804000000000)
        | ((placed << 28) & 0x1008040000000)
        | ((placed << 22) & 0x2010080000000)
        | ((placed << 16) & 0x4020100800000)
        | ((placed << 10) & 0x8040201008000)
        | ((placed << 4) & 0x10080402010080)
        | ((placed >> 2) & 0x20100804020100)
        | ((placed >> 8) & 0x201008040201)
        | ((placed >> 14) & 0x2010080402)
        | ((placed >> 20) & 0x20100804)
        | ((placed >> 26) & 0x201008)
        | ((placed >> 32) & 0x402010)
        | ((placed >> 38) & 0x4020)
        | ((placed >> 44) & 0x40)
}

// The bit at the first of 56 places, moved to where logical bit j stands among 54, with 0 at every other.
fn bit_named(places: u64, j: u8) -> u64
    requires { j < 54 }
    ensures bit { OneNamed j (carried 56 places 0) result }
    ensures bound { result < 2 ^ 54 }
{
    (places & FIRST_PLACE) >> (2 + j)
}

// The 54 logical bits in any order: place after place, the bit there goes where the order names it.
fn take_each(placed: u64, order: Listed) -> u64
    ensures { result ≡ value (cut (λ j. carried 56 placed (place_of order.entry.list.now j)) 0 54) }
{
    let mut bits: u64 = 0;
    let mut left = placed;
    for &j in order.list {
        bits |= bit_named(left, j);
        left <<= 1;
    }
    bits
}

// The logical bits of a frame as `logical_bits` has them, with the order, refused likewise.
pub(crate) fn taken<'a>(frame: &[u8], order: &'a [u8]) -> Result<(u64, Order<'a>), Refusal>
    ensures { MatchResult result (λ p. (bits_answer order.now frame.now ≡ Ok p.0) × (numbers p.1 ≡ order.now)) (λ f. bits_answer order.now frame.now ≡ Err f) }
{
    let Some(frame) = frame.as_array::<7>() else {
        return Err(Refusal::FrameLength);
    };
    let order = tested(order)?;
    if frame[6] % 4 != 0 {
        return Err(Refusal::PaddingBits);
    }
    let placed = placed_bits(frame);
    let bits = match order {
        Order::Default => gather(placed),
        Order::Other(order) => take_each(placed, order),
    };
    Ok((bits, order))
}

// The logical bits of a frame in the low 54 bits of a number, bit 0 the most significant. Refused: 2, what is not seven bytes;
// 10, a list that is no order; 3, a frame with one of its last two bits set.
pub fn logical_bits(frame: &[u8], order: &[u8]) -> Result<u64, Refusal>
    ensures { result ≡ bits_answer order.now frame.now }
{
    let (bits, _) = taken(frame, order)?;
    Ok(bits)
}

// The bit of place 0: 2 to the 55th.
const FIRST_PLACE: u64 = 0x80_0000_0000_0000;
