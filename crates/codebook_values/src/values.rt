// LSF values (MIL-STD-3005, 5.3.4) and Fourier magnitudes (5.3.5) of a parameter set.
ghost use Rattle.std.specs.Prelude.{◌≡◌, length};
ghost use Rattle.std.specs.Result.{result_err};
ghost use Rattle.refusal.specs.Refusals.{first_refusal};
ghost use Rattle.sets.specs.Sets.{in_range};
ghost use Rattle.codebook_values.specs.Values.{lsf_answer, lsf_writes, magnitudes_answer, magnitudes_writes};
ghost use Rattle.codebook_values.specs.Checks.{early_table};

use crate::lowering::lower;
use crate::raising::write_raised;
use crate::rows::{Rows, magnitudes_of};
use refusal::Refusal;
use sets::{ParameterSet, indices_of, is_in_range};

// How many numbers each codebook has.
const LSF_SIZE: usize = 3200;

const MAGNITUDE_SIZE: usize = 2560;

// The ten LSF values of a set to the front of `out`. Refused: 1, an output of fewer than ten numbers; 5, a set
// out of range; 6, a codebook of another length; 7, an entry of one of the set's four rows beyond its limit.
pub fn lsf_values(set: ParameterSet, codebook: &[i64], out: &mut [i64]) -> Result<(), Refusal>
    ensures answer { result ≡ lsf_answer set codebook.now (length out.old) }
    ensures written { out.new ≡ lsf_writes set codebook.now out.old }
{
    check(set, codebook.len(), LSF_SIZE, out.len())?;
    let rows = Rows::named_by(indices_of(set), codebook)?;
    write_raised(&rows, out);
    lower(out);
    Ok(())
}

// The ten magnitudes of a set to the front of `out`, refused likewise; an unvoiced set uses no row.
pub fn magnitudes(set: ParameterSet, codebook: &[i64], out: &mut [i64]) -> Result<(), Refusal>
    ensures answer { result ≡ magnitudes_answer set codebook.now (length out.old) }
    ensures written { out.new ≡ magnitudes_writes set codebook.now out.old }
{
    check(set, codebook.len(), MAGNITUDE_SIZE, out.len())?;
    let row = magnitudes_of(set, codebook)?;
    out[..10].copy_from_slice(row);
    Ok(())
}

// What is refused before any row is looked at: for a set, for the numbers of a codebook that is to have `size` of
// them, and for the room of an output.
#[tactic(auto, using(std::proofs::Common::tests))]
fn check(set: ParameterSet, numbers: usize, size: usize, room: usize) -> Result<(), Refusal>
    ensures { result_err result ≡ first_refusal (early_table (in_range set) numbers size room) }
{
    if room < 10 {
        return Err(Refusal::ShortOutput);
    }
    if !is_in_range(set) {
        return Err(Refusal::OutOfRange);
    }
    if numbers != size {
        return Err(Refusal::InvalidCodebook);
    }
    Ok(())
}
