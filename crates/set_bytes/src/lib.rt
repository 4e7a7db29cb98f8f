// A parameter set in eleven bytes: 1 if voiced, pitch index, L1 to L4, G2, G1, B, F, aperiodic flag, with 0 for all
// that an unvoiced set lacks. Ranges are not asked for here.
//
//   reading  the set in bytes
//   writing  the bytes of a set
#![tactic(auto)]

mod reading;
mod writing;

pub use reading::read;
pub use writing::write;
