// The lines of a session file (document 02, T-01), judged.
//
//   header  the three lines before the frames
//   frames  the line of a frame
#![tactic(auto)]

mod frames;
mod header;

pub use frames::read_frame;
pub use header::{Header, LineRefusal, read_header};
