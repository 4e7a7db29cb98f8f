// What stands in the parity places of the four words.
ghost use Rattle.std.specs.Prelude.{◌<◌};

// A number for each word: four places in word A, and three in each other.
#[derive(Clone, Copy)]
pub(crate) struct Parities {
    pub(crate) a: u8,
    pub(crate) b: u8,
    pub(crate) c: u8,
    pub(crate) d: u8,
    ghost fits: { (a < 16) × (b < 8) × (c < 8) × (d < 8) },
}
