// Gain levels (MIL-STD-3005, 5.3.3): from codes to the second level and to the first.
#![tactic(auto)]

mod levels;

pub use levels::{first_level, level};
