// Session files (document 02, T-01): frames as lines of text, written into lent bytes.
//
//   writing  the writer
//   header   the three lines before the frames
//   lines    the lines of frames
//   hex      bytes in hexadecimal
#![tactic(auto)]

mod header;
mod hex;
mod lines;
mod writing;

pub use writing::write;
