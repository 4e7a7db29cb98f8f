// The cheapest code word of a word, by the prices of all of them.
ghost use Rattle.std.specs.Prelude.{◌≡◌, ◌&&◌, ◌+◌, ◌*◌, ◌/◌, ◌%◌, ◌<◌, eqb, leb, take};
ghost use Rattle.bits.specs.Bits.{bits};
ghost use Rattle.hamming.specs.Word.{length_of};
ghost use Rattle.soft.specs.Choice.{choose};
ghost use Rattle.soft.specs.Prices.{key_number, least_in, as_cheap};

use crate::prices::prices;
use hamming::{Word, WordLength};

// The key of a code word: 16 times its cost, and its data. It is one number, so that the least is found by one comparison a
// code word.
fn key_of(price: u16, u: u16) -> u16
    requires { u < 16 }
    ensures { result ≡ price / 16 * 16 + u }
{
    price / 16 * 16 + u
}

// The key of the cheapest code word. Of equal costs the smallest data have the least key. A loop, which begins with the first
// and meets it again: with `map` and `min` of the iterator the proof was tried and did not close.
fn least_key(prices: &[u16; 16]) -> u16
    ensures { result ≡ key_number prices.now (least_in prices.now) }
{
    let mut least = key_of(prices[0], 0);
    for (u, &price) in prices.iter().enumerate() {
        least = least.min(key_of(price, u as u16));
    }
    least
}

// How many code words have this cost.
fn count_of(prices: &[u16; 16], cost: u16) -> u8
    ensures { result ≡ as_cheap prices.now cost }
{
    let mut count: u8 = 0;
    // in eight bits: by `filter` and `count`, which add in 64, the choice took a quarter more instructions
    for price in prices {
        count += u8::from(*price / 16 == cost);
    }
    count
}

// Whether the word is erased where this is the least cost: word A, by two or more code words that have it.
fn erases(length: WordLength, prices: &[u16; 16], cost: u16) -> bool
    ensures { result ≡ (eqb (length_of length) 8 && leb 2 (as_cheap prices.now cost)) }
{
    match length {
        WordLength::Six | WordLength::Seven => false,
        WordLength::Eight => 2 <= count_of(prices, cost),
    }
}

// How many places differ, by a price.
fn places_in(price: u16) -> u8
    ensures { result ≡ price % 16 }
{
    (price % 16) as u8
}

// The outcome of the word in the low bits of a number, by the confidences of its bits, the first bit's first; those past
// the word's length play no part.
pub fn choose(length: WordLength, word: u8, confidences: [u8; 8]) -> Option<Word>
    ensures { result ≡ choose (length_of length) (take (length_of length) confidences) (bits (length_of length) word) }
{
    let prices = prices(length, word, confidences);
    let key = least_key(&prices);
    if erases(length, &prices, key / 16) {
        return None;
    }
    let data = key % 16;
    Some(Word {
        data: data as u8,
        repaired: places_in(prices[usize::from(data)]),
    })
}
