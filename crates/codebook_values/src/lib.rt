// LSF values and Fourier magnitudes of a parameter set, by lent codebooks.
//
//   values      the calls
//   rows        the rows of a set, of ten numbers each
//   raising     sums of four rows, raised so that neighbours lie apart
//   lowering    these lowered again where they run off the top
#![tactic(auto)]

mod lowering;
mod raising;
mod rows;
mod values;

pub use values::{lsf_values, magnitudes};
