// The frames of sets in bytes, one after another, in one order.
#![tactic(auto)]

mod frames;

pub use frames::pack_sets;
