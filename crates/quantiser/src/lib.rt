// Gain codes by quantising levels (MIL-STD-3005, 5.3.3 and 5.3.7).
//
//   choice   from two levels to their codes
//   uniform  the uniform quantiser by which both codes are chosen
#![tactic(auto)]

mod choice;
mod uniform;

pub use choice::choose;

// The codes of the second and of the first level.
#[derive(Clone, Copy, Debug, PartialEq, Eq)]
pub struct GainCodes {
    pub g2: u8,
    pub g1: u8,
}
