// Parameter sets and their ranges.
#![tactic(auto)]

mod range;

pub use range::{indices_of, is_in_range, is_sendable};

// The indices that every set has: four LSF stages, the second gain index and the first gain code.
#[derive(Clone, Copy)]
pub struct Indices {
    pub l1: u8,
    pub l2: u8,
    pub l3: u8,
    pub l4: u8,
    pub g2: u8,
    pub g1: u8,
}

// What a voiced set has besides: pitch index, bandpass bits, Fourier index and aperiodic flag.
#[derive(Clone, Copy)]
pub struct Voicing {
    pub pitch: u8,
    pub bandpass: u8,
    pub fourier: u8,
    pub aperiodic: u8,
}

// A parameter set, unvoiced or voiced.
#[derive(Clone, Copy)]
pub enum ParameterSet {
    Unvoiced(Indices),
    Voiced(Indices, Voicing),
}
