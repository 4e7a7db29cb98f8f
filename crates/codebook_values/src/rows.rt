// The rows that a set in range names in a whole codebook.
ghost use Rattle.std.specs.Prelude.{◌≡◌, ◌≤◌, ◌<◌, true, eqb, length, get_or, pos, nat_abs, ◌+ℤ◌, IfOk};
ghost use Rattle.std.specs.Result.{result_err};
ghost use Rattle.codebook.specs.Rows.{lsf_size, stage_rows, lsf_row, lsf_fits, all_fit, magnitude_size};
ghost use Rattle.sets.specs.Sets.{indices_fit};
ghost use Rattle.codebook_values.specs.Values.{added_four, rows_fit, of_rows, magnitudes, magnitudes_fit};
ghost use Rattle.codebook_values.specs.Checks.{rows_refusal};

use codebook::{lsf_row, magnitude_row};
use refusal::Refusal;
use sets::{Indices, ParameterSet};

// The magnitudes of an unvoiced set.
const FLAT: [i64; 10] = [1_000_000; 10];

// The four rows of a set, one of each stage of the LSF codebook, with every entry within its limit.
#[derive(Clone, Copy)]
pub(crate) struct Rows<'a> {
    pub first: &'a [i64; 10],
    pub second: &'a [i64; 10],
    pub third: &'a [i64; 10],
    pub fourth: &'a [i64; 10],
    // a proof does not learn an array's length from a field that refers to it
    ghost ten: { (length first.now ≡ 10) × (length second.now ≡ 10) × (length third.now ≡ 10) × (length fourth.now ≡ 10) },
    ghost fit: { rows_fit first.now second.now third.now fourth.now ≡ true },
}

impl<'a> Rows<'a> {
    ghost use Rattle.codebook_values.specs.Sums.{sums};

    // The rows that a set's indices name. Refused: 7, an entry of one of them beyond its limit.
    pub(crate) fn named_by(x: Indices, codebook: &'a [i64]) -> Result<Rows<'a>, Refusal>
        requires whole { length codebook.now ≡ lsf_size }
        requires there { indices_fit x ≡ true }
        ensures refused { result_err result ≡ rows_refusal (of_rows rows_fit codebook.now x) }
        ensures rows { IfOk result (λ rows. sums rows ≡ of_rows added_four codebook.now x) }
    {
        Ok(Rows {
            first: stage_row(codebook, 1, x.l1)?,
            second: stage_row(codebook, 2, x.l2)?,
            third: stage_row(codebook, 3, x.l3)?,
            fourth: stage_row(codebook, 4, x.l4)?,
        })
    }

    // The sum of the four rows at k.
    pub(crate) fn sum_at(&self, k: usize) -> i64
        requires { k < 10 }
        ensures equal { result ≡ get_or (sums self.now) k (pos 0) }
        ensures bound { nat_abs result ≤ 16000000000 }
    {
        four_sum(self.first[k], self.second[k], self.third[k], self.fourth[k])
    }
}

// The sum of four entries within the limit.
fn four_sum(a: i64, b: i64, c: i64, d: i64) -> i64
    requires { (lsf_fits a ≡ true) × (lsf_fits b ≡ true) × (lsf_fits c ≡ true) × (lsf_fits d ≡ true) }
    ensures equal { result ≡ a +ℤ b +ℤ c +ℤ d }
    ensures bound { nat_abs result ≤ 16000000000 }
{
    a + b + c + d
}

// The row of a stage.
fn stage_row(codebook: &[i64], stage: u8, index: u8) -> Result<&[i64; 10], Refusal>
    requires whole { length codebook.now ≡ lsf_size }
    requires there { index < stage_rows stage }
    ensures refused { result_err result ≡ rows_refusal (all_fit lsf_fits (lsf_row codebook.now stage index)) }
    ensures numbers { IfOk result (λ row. row.now ≡ lsf_row codebook.now stage index) }
{
    ten(lsf_row(codebook, stage, index))
}

// The magnitudes of a set: the row that it names, refused likewise; an unvoiced set uses no row.
pub(crate) fn magnitudes_of(set: ParameterSet, codebook: &[i64]) -> Result<&[i64; 10], Refusal>
    requires { length codebook.now ≡ magnitude_size }
    ensures refused { result_err result ≡ rows_refusal (magnitudes_fit codebook.now set) }
    ensures numbers { IfOk result (λ row. row.now ≡ magnitudes codebook.now set) }
{
    match set {
        ParameterSet::Unvoiced(_) => Ok(&FLAT),
        ParameterSet::Voiced(_, v) => ten(magnitude_row(codebook, u16::from(v.fourier))),
    }
}

// The ten numbers of a row that was handed out; one that was refused has none.
fn ten(row: &[i64]) -> Result<&[i64; 10], Refusal>
    ensures refused { result_err result ≡ rows_refusal (eqb (length row.now) 10) }
    ensures numbers { IfOk result (λ numbers. numbers.now ≡ row.now) }
{
    row.try_into().map_err(|_| Refusal::EntryOutOfRange)
}
