// The seven bytes of 54 logical bits in an order.
ghost use Rattle.std.specs.Prelude.{◌≡◌};
ghost use Rattle.bits.specs.Bits.{value, cut, carried};
ghost use Rattle.order.specs.Order.{default_order, placed, byte_of};
ghost use Rattle.order.specs.Placing.{placed_bits};

use crate::list::tested;
use crate::tested::{Listed, Order};
use refusal::Refusal;

// The 56 places of 54 logical bits in the default order. Bits that stand as far from where they go move together, by a shift
// and a mask.
fn scatter(bits: u64) -> u64
    ensures { result ≡ value (cut (placed default_order (carried 54 bits)) 0 56) }
{
    ((bits >> 40) & 0x40)
        | ((bits >> 34) & 0x2010)
        | ((bits >> 28) & 0x100804)
        | ((bits >> 22) & 0x8040200)
        | ((bits >> 16) & 0x402010080)
        | ((bits >> 10) & 0x20100804020)
        | ((bits >> 4) & 0x1008040201008)
        | ((bits << 2) & 0x80402010080400)
        | ((bits << 8) & 0x20100804020100)
        | ((bits << 14) & 0x8040201008000)
        | ((bits << 20) & 0x2010080400000)
        | ((bits << 26) & 0x804020000000)
        | ((bits << 32) & 0x40201000000000)
        | ((bits << 38) & 0x10080000000000)
        | ((bits << 44) & 0x4000000000000)
}

// The 56 places in any order: place after place, the bit that the order names there.
fn place_each(bits: u64, order: Listed) -> u64
    ensures { result ≡ value (cut (placed order.entry.list.now (carried 54 bits)) 0 56) }
{
    let first = bits << 10;
    let mut places: u64 = 0;
    for &j in order.list {
        places = places * 2 + ((first << j) >> 63);
    }
    places * 4
}

// The seven bytes of a number's low 56 bits, most significant first.
fn seven_bytes(bits: u64) -> [u8; 7]
    ensures { result ≡ cut (byte_of (carried 56 bits)) 0 7 }
{
    let [_, a, b, c, d, e, f, g] = bits.to_be_bytes();
    [a, b, c, d, e, f, g]
}

// The frame of the logical bits in the low 54 bits of a number. Refused: 10, a list that is no order.
pub fn place_bits(bits: u64, order: &[u8]) -> Result<[u8; 7], Refusal>
    ensures { result ≡ placed_bits order.now (carried 54 bits) }
{
    let places = match tested(order)? {
        Order::Default => scatter(bits),
        Order::Other(order) => place_each(bits, order),
    };
    Ok(seven_bytes(places))
}
