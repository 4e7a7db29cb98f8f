// The lines that `hear` prints, as bytes in a lent buffer.
//
//   frames   the line of a frame
//   summary  the first and the last line of a call
//   fields   the parts of a frame's line
//   line     a line in a lent buffer, and its parts
#![tactic(auto)]

mod fields;
mod frames;
mod line;
mod summary;

pub use frames::frame_line;
pub use summary::{first_line, last_line};
