// The receiver: the calls that take a frame, and what a frame yields and leaves.
//
//   receiving       the calls
//   soft_receiving  the calls that are given a confidence for each place
//   steps           what an accepted frame and a repeat yield
//   next            the record that they leave
//   valid           a record that was tested
#![tactic(auto)]

mod next;
mod receiving;
mod soft_receiving;
mod steps;
mod valid;

pub use receiving::{receive, receive_in_place};
use records::Record;
use refusal::Refusal;
use sets::ParameterSet;
pub use soft_receiving::{receive_soft, receive_soft_in_place};

// The kind of a result.
#[derive(Clone, Copy)]
pub enum Kind {
    Unvoiced,
    Voiced,
    Repeat,
}

// What a frame yields. The levels are in units of 1/186 dB.
#[derive(Clone, Copy)]
pub struct FrameResult {
    pub kind: Kind,
    pub set: ParameterSet,
    pub first: u32,
    pub second: u32,
    pub mute: bool,
    pub sync: bool,
    pub repaired: u8,
}

// The answer, and the next record, which is there after a refusal too.
#[derive(Clone, Copy)]
pub struct Received {
    pub answer: Result<FrameResult, Refusal>,
    pub next: Record,
}
