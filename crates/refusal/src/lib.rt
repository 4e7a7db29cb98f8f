// The numbered refusals of a call, each by the place of the table that it stands for.
//
//   numbered  what has a number of a refusal
#![tactic(auto)]

mod numbered;

ghost use Rattle.std.specs.Prelude.{◌≡◌};
ghost use Rattle.refusal.specs.Refusals.{number_of};

pub use numbered::Numbered;

// What refuses a call, in the order of the numbers.
#[derive(Clone, Copy, Debug, PartialEq, Eq)]
pub enum Refusal {
    // The output has too little room.
    ShortOutput,
    // The frame is not seven bytes.
    FrameLength,
    // One of the frame's last two bits is 1.
    PaddingBits,
    // A field of the receiver's record is out of its range.
    InvalidRecord,
    // A set, an index, a level or a gain index is out of range.
    OutOfRange,
    // A codebook has another length.
    InvalidCodebook,
    // A codebook entry in use is beyond its limit.
    EntryOutOfRange,
    // A line of a session file is bad.
    BadLine,
    // There are other than 54 confidences.
    ConfidenceCount,
    // A list is no order of the bits.
    InvalidOrder,
}

impl Refusal {
    // The number that the table has for it.
    pub fn number(self) -> u8
        ensures { result ≡ number_of self }
    {
        match self {
            Refusal::ShortOutput => 1,
            Refusal::FrameLength => 2,
            Refusal::PaddingBits => 3,
            Refusal::InvalidRecord => 4,
            Refusal::OutOfRange => 5,
            Refusal::InvalidCodebook => 6,
            Refusal::EntryOutOfRange => 7,
            Refusal::BadLine => 8,
            Refusal::ConfidenceCount => 9,
            Refusal::InvalidOrder => 10,
        }
    }
}
