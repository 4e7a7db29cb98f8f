// The burst width of an order: the smallest distance between two places of the pitch code or of one word.
ghost use Rattle.std.specs.Prelude.{◌≡◌, ◌<◌, T, length};
ghost use Rattle.order.specs.Order.{is_order};
ghost use Rattle.bursts.specs.Width.{burst_width, width_answer};
ghost use Rattle.bursts.specs.Distances.{number_of, part_of, same_part, apart_at};

use order::is_order;
use refusal::Refusal;

// A part of a frame: one of the words A to D, the pitch code, or all the other bits.
#[derive(Clone, Copy, Debug, PartialEq, Eq)]
enum Part {
    WordA,
    WordB,
    WordC,
    WordD,
    PitchCode,
    Other,
}

// The part of a frame that a logical bit belongs to.
fn part_of(bit: u8) -> Part
    ensures { number_of result ≡ part_of bit }
{
    match bit {
        0..8 => Part::WordA,
        8..14 => Part::WordB,
        14..21 => Part::WordC,
        21..28 => Part::WordD,
        28..35 => Part::PitchCode,
        _ => Part::Other,
    }
}

// Whether two logical bits are of the same word, or both of the pitch code.
fn same_part(a: u8, b: u8) -> bool
    ensures { result ≡ same_part a b }
{
    let part = part_of(a);
    part != Part::Other && part == part_of(b)
}

// Whether no two places at a distance hold bits of one part.
fn apart_at(order: &[u8], distance: usize) -> bool
    requires { (length order.now ≡ 54) × (distance < 54) }
    ensures { result ≡ apart_at order.now distance }
{
    order
        .iter()
        .zip(&order[distance..])
        .all(|(a, b)| !same_part(*a, *b))
}

// The smallest distance of two places that do. No order is without one.
fn smallest_distance(order: &[u8]) -> u8
    requires { T (is_order order.now) }
    ensures { result ≡ burst_width order.now }
{
    (1..54usize)
        .find(|distance| !apart_at(order, *distance))
        .unwrap_or(54) as u8
}

// The burst width of an order. Refused: 10, a list that is no order.
pub fn burst_width(order: &[u8]) -> Result<u8, Refusal>
    ensures { result ≡ width_answer order.now }
{
    if is_order(order) {
        Ok(smallest_distance(order))
    } else {
        Err(Refusal::InvalidOrder)
    }
}
