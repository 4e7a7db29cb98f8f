// A receiver's record.
//
//   state    the fresh record, and the test of a record
//   repeats  how many of the latest sixteen frames are repeats, and mute
//   old      a record without that number, taken over
#![tactic(auto)]

mod old;
mod repeats;
mod state;

pub use old::take_over;
use refusal::Refusal;
pub use repeats::is_muted;
use sets::ParameterSet;
pub use state::{fresh, is_valid};

// The kind of a frame as the record keeps it: a repeat or not. A struct of one bool: a kind says one thing, and clients name
// the field.
#[derive(Clone, Copy)]
pub struct FrameKind {
    pub repeat: bool,
}

// What a receiver keeps: the last accepted set, the last accepted G2, the kinds of the latest sixteen frames, oldest
// first, and how many of these are repeats.
#[derive(Clone, Copy)]
pub struct Record {
    pub last: ParameterSet,
    pub g2: u8,
    pub kinds: [FrameKind; 16],
    pub repeats: u8,
}

// What the receivers in service keep: the same without that number.
#[derive(Clone, Copy)]
pub struct OldRecord {
    pub last: ParameterSet,
    pub g2: u8,
    pub kinds: [FrameKind; 16],
}

// An old record taken over: what refuses it, and the new record beside it, which counts its repeats after a refusal too.
#[derive(Clone, Copy)]
pub struct TakenOver {
    pub answer: Result<(), Refusal>,
    pub next: Record,
}
