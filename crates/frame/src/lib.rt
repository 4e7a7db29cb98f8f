// The coded frame: the 54 logical bits of a set, and packing.
//
//   layout    the logical bits as one number
//   packing   the call, and a fresh sender's sync bit
//   parities  what stands in the parity places
#![tactic(auto)]

mod layout;
mod packing;
mod parities;

pub use packing::{fresh_sync, pack};
