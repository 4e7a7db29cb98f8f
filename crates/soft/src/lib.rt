// Soft decisions: the data of a received word, chosen by the confidences of its bits.
//
//   choice  the call: the cheapest code word
//   prices  what each code word costs
#![tactic(auto)]

mod choice;
mod prices;

pub use choice::choose;
