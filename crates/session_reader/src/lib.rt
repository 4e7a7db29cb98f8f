// Session files (document 02, T-01), read line after line. A reader carries the lent text along with it; the parser
// below it takes the text and an offset.
//
//   reader  a lent text with an offset in it
//   steps   the parser: what stands at an offset
#![tactic(auto)]

mod reader;
mod steps;

pub use reader::{Handed, Reader, read_at};
pub use session_lines::LineRefusal;
pub use steps::parse_at;

// One step of reading: what stands at an offset of a text, a frame's line or the end of the file, or the refusal of a bad
// line, of line 0 where no line can start there; and the offset after it.
#[derive(Clone, Copy, Debug, PartialEq, Eq)]
pub struct Step {
    pub answer: Result<Option<[u8; 7]>, LineRefusal>,
    pub at: usize,
}
