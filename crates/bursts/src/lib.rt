// Bursts: flips of a frame's bits that stand together, and how many neighbouring places an order lets them span.
#![tactic(auto)]

mod width;

pub use width::burst_width;
