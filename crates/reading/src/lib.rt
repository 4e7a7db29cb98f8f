// What a frame's logical bits are read as.
//
//   unpacking       the call, and what a frame of each class is read as
//   soft_unpacking  the same with a confidence for each bit
//   parts           parts of the 54 bits
//   pitch_code      what the pitch code says
#![tactic(auto)]

mod parts;
mod pitch_code;
mod soft_unpacking;
mod unpacking;

use sets::ParameterSet;
pub use soft_unpacking::read_soft;
pub use unpacking::read;

// What a frame's bits are read as. A frame that is erased is read as nothing.
#[derive(Clone, Copy)]
pub struct Accepted {
    pub set: ParameterSet,
    // How many bits were repaired.
    pub repaired: u8,
}
