// What tells one codebook from the other: its rows, and the limits of its entries.
ghost use Rattle.std.specs.Prelude.{◌≡◌, ◌<◌, IfOk};
ghost use Rattle.std.specs.Result.{result_err};
ghost use Rattle.codebook.specs.Rows.{row_at, between, all_fit};

use refusal::Refusal;

// How many rows of ten numbers a codebook has, and the least and the most that an entry may be.
#[derive(Clone, Copy)]
pub(crate) struct Shape {
    pub rows: u16,
    pub least: i64,
    pub most: i64,
}

// The LSF codebook, all four stages together.
pub(crate) const LSF: Shape = Shape {
    rows: 320,
    least: -4_000_000_000,
    most: 4_000_000_000,
};

// The codebook of magnitudes.
pub(crate) const MAGNITUDES: Shape = Shape {
    rows: 256,
    least: 0,
    most: 4_000_000,
};

impl Shape {
    ghost use Rattle.codebook.specs.RowNumbers.{row_refusal};

    // Row k of such a codebook. Refused: 6, a codebook of another length; 7, an entry of the row beyond its limit.
    #[tactic(auto, using(std::proofs::Common::tests))]
    pub(crate) fn row(self, codebook: &[i64], k: u16) -> Result<&[i64], Refusal>
        requires { k < self.rows }
        ensures refused { result_err result ≡ row_refusal self codebook.now k }
        ensures row { IfOk result (λ row. row.now ≡ row_at codebook.now k) }
    {
        if codebook.len() != 10 * usize::from(self.rows) {
            return Err(Refusal::InvalidCodebook);
        }
        let at = 10 * usize::from(k);
        let row = &codebook[at..at + 10];
        if self.fits(row) {
            Ok(row)
        } else {
            Err(Refusal::EntryOutOfRange)
        }
    }

    // Whether every number of a row is within the limits. By two comparisons: the proof did not close with `contains`.
    fn fits(self, row: &[i64]) -> bool
        ensures { result ≡ all_fit (between self.least self.most) row.now }
    {
        row.iter()
            .all(|&entry| self.least <= entry && entry <= self.most)
    }
}
