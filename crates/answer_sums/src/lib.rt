// All numbers that a frame is answered, added up, over frames too, and a sum in bytes, as bench_receive and bench_soft write it.
//
//   frames  the sum over frames that stand one after another
//   sums    what one answer adds to a sum
//   bytes   a number in eight bytes
#![tactic(auto)]

mod bytes;
mod frames;
mod sums;

pub use bytes::eight_bytes;
pub use frames::{Receive, sum_of};
pub use sums::of_answer;
