// What the code words of a word cost. A price is 16 times a cost, and the number of places that differ: both are sums over
// these places, so one sum has both.
ghost use Rattle.std.specs.Prelude.{◌≡◌, [], ◌∷◌, map, ◌≤◌, ◌<◌, ◌^◌, take, drop};
ghost use Rattle.bits.specs.Bits.{bits};
ghost use Rattle.hamming.specs.Word.{length_of, check_bits, data_bits, data_of};
ghost use Rattle.soft.specs.Choice.{code_words};
ghost use Rattle.soft.specs.Prices.{price, SumsOf, entry_price, EntryFits, prices_of, PricesFit};

use hamming::{WordLength, parity_of};

// What came of a word.
#[derive(Clone, Copy)]
struct Came {
    data: u8,
    parity: u8,
}

// The price of a place that differs.
fn price(confidence: u8) -> u16
    ensures price { result ≡ price confidence }
    ensures bound { result ≤ 4081 }
{
    u16::from(confidence) * 16 + 1
}

// The sums of any of four prices, by the number whose bits say which; the first goes with the most significant.
fn sums(q0: u8, q1: u8, q2: u8, q3: u8) -> [u16; 16]
    ensures { SumsOf (price q0 ∷ price q1 ∷ price q2 ∷ price q3 ∷ []) result }
{
    let a = price(q0);
    let b = price(q1);
    let c = price(q2);
    let d = price(q3);
    [
        0,
        d,
        c,
        c + d,
        b,
        b + d,
        b + c,
        b + (c + d),
        a,
        a + d,
        a + c,
        a + (c + d),
        a + b,
        a + (b + d),
        a + (b + c),
        a + (b + (c + d)),
    ]
}

// The sums over the data bits, and those over the parity bits. Of either a word has three or four; where it has three, the number
// in front of them plays no part.
fn sums_of(length: WordLength, q: [u8; 8]) -> ([u16; 16], [u16; 16])
    ensures data { SumsOf (map price (take (data_bits (length_of length)) (take (length_of length) q))) result.0 }
    ensures parity { SumsOf (map price (drop (data_bits (length_of length)) (take (length_of length) q))) result.1 }
{
    match length {
        WordLength::Six => (sums(0, q[0], q[1], q[2]), sums(0, q[3], q[4], q[5])),
        WordLength::Seven => (sums(q[0], q[1], q[2], q[3]), sums(0, q[4], q[5], q[6])),
        WordLength::Eight => (sums(q[0], q[1], q[2], q[3]), sums(q[4], q[5], q[6], q[7])),
    }
}

// How many code words a word has.
fn code_words(length: WordLength) -> u8
    ensures { result ≡ code_words (length_of length) }
{
    match length {
        WordLength::Six => 8,
        WordLength::Seven | WordLength::Eight => 16,
    }
}

// What came of the word in the low bits of a number.
fn parts_of(length: WordLength, word: u8) -> Came
    ensures data { bits (data_bits (length_of length)) result.data ≡ data_of (length_of length) (bits (length_of length) word) }
    ensures parity { bits (check_bits (length_of length)) result.parity ≡ drop (data_bits (length_of length)) (bits (length_of length) word) }
    ensures bounds { (result.data < code_words (length_of length)) × (result.parity < 2 ^ check_bits (length_of length)) }
{
    let weight = length.data_weight();
    Came {
        data: word / weight % code_words(length),
        parity: word % weight,
    }
}

// The price of the code word of data u: of the sums over data bits, ds, and over parity bits, ps, those of the bits that differ
// from what came.
fn price_at(length: WordLength, came: Came, ds: &[u16; 16], ps: &[u16; 16], u: u8) -> u16
    requires { EntryFits (length_of length) came.data came.parity ds.now ps.now u }
    ensures { result ≡ entry_price (length_of length) came.data came.parity ds.now ps.now u }
{
    let parity = came.parity ^ parity_of(length, u);
    ds[usize::from(came.data ^ u)] + ps[usize::from(parity)]
}

// The prices of the code words of the word in the low bits of a number, by their data, and past them numbers that no price
// reaches: so every word has sixteen, and no length goes beside them.
pub(crate) fn prices(length: WordLength, word: u8, q: [u8; 8]) -> [u16; 16]
    ensures prices { result ≡ prices_of (length_of length) (take (length_of length) q) (bits (length_of length) word) }
    ensures bound { PricesFit (length_of length) (take (length_of length) q) (bits (length_of length) word) }
{
    let (of_data, of_parity) = sums_of(length, q);
    let came = parts_of(length, word);
    let mut prices = [DEAREST; 16];
    for u in 0..code_words(length) {
        prices[usize::from(u)] = price_at(length, came, &of_data, &of_parity, u);
    }
    prices
}

// What stands where a word has no code word: no price reaches it, so it is never the least.
const DEAREST: u16 = u16::MAX;
