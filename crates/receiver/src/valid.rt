// A record that was tested.
ghost use Rattle.std.specs.Prelude.{◌≡◌, true};
ghost use Rattle.records.specs.Records.{valid};

use records::Record;

// A valid record: each step of a frame starts from one.
#[derive(Clone, Copy)]
pub(crate) struct ValidRecord {
    pub(crate) rec: Record,
    ghost tested: { valid rec ≡ true },
}
