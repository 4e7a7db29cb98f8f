// A codebook from its text form: one whole number a line.
#![tactic(auto)]

mod line;
mod text;

pub use text::{read_lsf, read_magnitudes};
