// Rows of ten numbers in a lent codebook, of LSF (MIL-STD-3005, 5.3.4) or of magnitudes (5.3.5).
ghost use Rattle.std.specs.Prelude.{◌≡◌, IfOk};
ghost use Rattle.std.specs.Result.{result_err};
ghost use Rattle.codebook.specs.Rows.{lsf_row, magnitude_row, lsf_row_refusal, magnitude_row_refusal, row_unless, number_or_zero};

use crate::shape::{LSF, MAGNITUDES};
use crate::stages::lsf_row_number;
use refusal::Refusal;

// The calls answer without a `Result`: the document that clients hold gives them a part of no numbers for a refused
// row, and the number of its refusal, 0 for none, by a second call.

// The row of a stage that an index names, as a part of the codebook; a part of no numbers where it is refused.
pub fn lsf_row(codebook: &[i64], stage: u8, index: u8) -> &[i64]
    ensures { result.now ≡ row_unless (lsf_row_refusal codebook.now stage index) (lsf_row codebook.now stage index) }
{
    stage_row(codebook, stage, index).unwrap_or(&codebook[..0])
}

// The number of the refusal of that row, 0 is none. Refused: 5, an index past the rows of its stage, and any of another
// stage; 6, a codebook of another length; 7, an entry of the row beyond its limit.
pub fn lsf_row_refusal(codebook: &[i64], stage: u8, index: u8) -> u8
    ensures { result ≡ number_or_zero (lsf_row_refusal codebook.now stage index) }
{
    number_or_zero(stage_row(codebook, stage, index))
}

// The row of magnitudes that an index names, as a part of the codebook; a part of no numbers where it is refused.
pub fn magnitude_row(codebook: &[i64], index: u16) -> &[i64]
    ensures { result.now ≡ row_unless (magnitude_row_refusal codebook.now index) (magnitude_row codebook.now index) }
{
    row_of_magnitudes(codebook, index).unwrap_or(&codebook[..0])
}

// The number of the refusal of that row, 0 is none. Refused: 5, an index past 255; 6 and 7 likewise.
pub fn magnitude_row_refusal(codebook: &[i64], index: u16) -> u8
    ensures { result ≡ number_or_zero (magnitude_row_refusal codebook.now index) }
{
    number_or_zero(row_of_magnitudes(codebook, index))
}

// The row of a stage that an index names.
#[tactic(auto, using(crate::proofs::StageRows::row_number_lt))]
fn stage_row(codebook: &[i64], stage: u8, index: u8) -> Result<&[i64], Refusal>
    ensures refused { result_err result ≡ lsf_row_refusal codebook.now stage index }
    ensures row { IfOk result (λ row. row.now ≡ lsf_row codebook.now stage index) }
{
    match lsf_row_number(stage, index) {
        Some(k) => LSF.row(codebook, k),
        None => Err(Refusal::OutOfRange),
    }
}

// The row of magnitudes that an index names.
fn row_of_magnitudes(codebook: &[i64], index: u16) -> Result<&[i64], Refusal>
    ensures refused { result_err result ≡ magnitude_row_refusal codebook.now index }
    ensures row { IfOk result (λ row. row.now ≡ magnitude_row codebook.now index) }
{
    if index < MAGNITUDES.rows {
        MAGNITUDES.row(codebook, index)
    } else {
        Err(Refusal::OutOfRange)
    }
}

// The number of a row's refusal, 0 where it is not refused.
fn number_or_zero(row: Result<&[i64], Refusal>) -> u8
    ensures { result ≡ number_or_zero (result_err row.entry) }
{
    row.map_or_else(|refusal| refusal.number(), |_| 0)
}
