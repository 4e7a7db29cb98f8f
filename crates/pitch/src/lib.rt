// The pitch code of a frame: seven bits that tell unvoiced from voiced and carry the pitch index.
//
//   class  the class of a code
//   code   the code of an index
#![tactic(auto)]

mod class;
mod code;

pub use class::classify;
pub use code::encode;

// What a pitch code says of its frame; a voiced one has its pitch index.
#[derive(Clone, Copy)]
pub enum PitchClass {
    Unvoiced,
    Erased,
    Voiced(u8),
}
