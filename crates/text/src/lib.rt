// Text as bytes in a lent buffer, of any length. Each call writes a whole text from `at` on and answers where it
// ends; where the buffer ends before the text, it writes nothing and is refused with `ShortOutput`. A caller that goes on
// where the last text ends takes `end_of` it. It is not std's printing: of that nothing is promised.
//
// The buffer and the place stay two parameters of each function of this crate: a struct of both would need one more clause in
// each, that it still lends the same buffer.
//
//   fields   a name, and a number after it
//   signs    a signed number
//   decimal  numbers, where there is room
//   bytes    bytes put one after another
#![tactic(auto)]

mod bytes;
mod decimal;
mod fields;
mod signs;

pub use bytes::{end_of, place};
pub use fields::{byte, name, number};
pub use signs::signed;

// A name in its first bytes. What fills it up, with dots, is not written. An array and no `&[u8]`, with the width beside it at each
// call: a byte string that is lent costs the checker several times as much.
pub type Name = [u8; 16];
