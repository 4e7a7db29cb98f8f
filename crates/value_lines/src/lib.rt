// The line of a value, which `spectrum` prints, and of a refusal, which `to_session` prints too, as bytes in a lent buffer.
//
//   lines  the line of a value, and of a refusal
#![tactic(auto)]

mod lines;

pub use lines::{refusal_line, value_line};
