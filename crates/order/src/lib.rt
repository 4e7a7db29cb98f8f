// The order of a frame's bits: which logical bit stands at which place, and the seven bytes of the places.
//
//   tested       an order that has been tested
//   list         the default order, and the test of an order
//   place        54 logical bits to seven bytes
//   taking       seven bytes to 54 logical bits
//   soft_taking  the same with a confidence for each place
#![tactic(auto)]

mod list;
mod place;
mod soft_taking;
mod taking;
mod tested;

pub use list::{default_order, is_order};
pub use place::place_bits;
pub use soft_taking::soft_bits;
pub use taking::logical_bits;

// The logical bits of a frame in the low 54 bits of a number, bit 0 the most significant, and the confidence of each.
#[derive(Clone, Copy)]
pub struct SoftBits {
    pub bits: u64,
    pub confidences: [u8; 54],
}
