// The values of a frame, by the texts of two codebooks.
ghost use Rattle.std.specs.Prelude.{◌≡◌};
ghost use Rattle.spectrum.specs.Values.{of_codebooks, of_texts, of_frame};

use refusal::Refusal;
use sets::ParameterSet;

// The values of a frame.
#[derive(Clone, Copy)]
pub(crate) struct Spectrum {
    pub(crate) lsf: [i64; 10],
    pub(crate) magnitudes: [i64; 10],
}

// What a fresh receiver makes of the bytes: a refusal of the frame comes first, then one of a text, then one of
// a row.
pub(crate) fn of_frame(bytes: &[u8], lsf: &[u8], magnitudes: &[u8]) -> Result<Spectrum, Refusal>
    ensures { result ≡ of_frame bytes.now lsf.now magnitudes.now }
{
    let order = order::default_order();
    let result = receiver::receive(records::fresh(), bytes, &order).answer?;
    of_texts(result.set, lsf, magnitudes)
}

// The values of a set by the texts of both codebooks, which are judged before any row. The two stay two parameters: each goes
// to a call of its own, and a struct of both would be made to be taken apart.
fn of_texts(set: ParameterSet, lsf: &[u8], magnitudes: &[u8]) -> Result<Spectrum, Refusal>
    ensures { result ≡ of_texts set lsf.now magnitudes.now }
{
    let mut lsf_codebook = [0; 3200];
    codebook_text::read_lsf(lsf, &mut lsf_codebook)?;
    let mut magnitude_codebook = [0; 2560];
    codebook_text::read_magnitudes(magnitudes, &mut magnitude_codebook)?;
    of_codebooks(set, &lsf_codebook, &magnitude_codebook)
}

// The values of a set by both codebooks.
fn of_codebooks(set: ParameterSet, lsf: &[i64], magnitudes: &[i64]) -> Result<Spectrum, Refusal>
    ensures { result ≡ of_codebooks set lsf.now magnitudes.now }
{
    let mut components = [0; 10];
    let mut row = [0; 10];
    codebook_values::lsf_values(set, lsf, &mut components)?;
    codebook_values::magnitudes(set, magnitudes, &mut row)?;
    Ok(Spectrum {
        lsf: components,
        magnitudes: row,
    })
}
