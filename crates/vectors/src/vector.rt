// The 256 bytes of a vector, and the numbers, parts and sets that stand in them.
ghost use Rattle.std.specs.Prelude.{◌+◌, ◌^◌, ◌<◌, ◌≤◌, length};

use refusal::Refusal;
use sets::ParameterSet;

// A vector, as it is read.
#[derive(Clone, Copy)]
pub(crate) struct Vector {
    pub(crate) bytes: [u8; 256],
}

impl Vector {
    // The number of its kind, as tests/reference writes it.
    pub(crate) fn kind(&self) -> u8 {
        self.bytes[0]
    }

    // The byte of this number.
    pub(crate) fn byte(&self, at: u8) -> u8 {
        self.bytes[usize::from(at)]
    }

    // The so many bytes from `at` as a number, the high one first.
    pub(crate) fn number(&self, at: usize, size: usize) -> usize
        requires { (at + size ≤ 256) × (size ≤ 8) }
        ensures { result < 256 ^ size }
    {
        let mut n: usize = 0;
        for x in &self.bytes[at..at + size] {
            n = n * 256 + usize::from(*x);
        }
        n
    }

    // The part that has this start and size; nothing where it does not fit. No `Option`: who calls it tests the size, or takes
    // nothing for what does not fit.
    pub(crate) fn part(&self, start: usize, size: usize) -> &[u8]
        requires { start ≤ 256 }
    {
        self.bytes[start..].get(..size).unwrap_or(&[])
    }

    // Whether these are the bytes from `start`.
    pub(crate) fn bytes_agree(&self, start: usize, bytes: &[u8]) -> bool
        requires { start + length bytes.now ≤ 256 }
    {
        self.bytes[start..].starts_with(bytes)
    }

    // Whether the set is the one in the eleven bytes from `start`.
    pub(crate) fn set_agrees(&self, start: usize, set: ParameterSet) -> bool
        requires { start ≤ 245 }
    {
        self.bytes_agree(start, &set_bytes::write(set))
    }
}

// Three bytes as a number.
pub(crate) fn joined(high: u8, middle: u8, low: u8) -> usize {
    usize::from_be_bytes([0, 0, 0, 0, 0, high, middle, low])
}

// The number of a refusal as a vector has it; 0 stands there for no refusal.
pub(crate) fn refused<T: Copy>(answer: Result<T, Refusal>) -> u8 {
    answer.map_or_else(|refusal| refusal.number(), |_| 0)
}
