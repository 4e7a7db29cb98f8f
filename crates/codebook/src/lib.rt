// Codebooks of line spectral frequencies and of Fourier magnitudes, by their rows.
//
//   rows    a row handed out as a part of the lent codebook, and its refusal
//   shape   the rows of a codebook and the limits of its entries
//   stages  the stages of the LSF codebook
#![tactic(auto)]

mod rows;
mod shape;
mod stages;

pub use rows::{lsf_row, lsf_row_refusal, magnitude_row, magnitude_row_refusal};
