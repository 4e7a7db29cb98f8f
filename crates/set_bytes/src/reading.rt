// The set in bytes.
ghost use Rattle.std.specs.Prelude.{◌≡◌};
ghost use Rattle.sets.specs.declared.ParameterSet.TheVariants.{Unvoiced};
ghost use Rattle.set_bytes.specs.SetBytes.{same, bytes_of, read_indices, read_voicing, read_answer};

use crate::writing::write;
use refusal::Refusal;
use sets::{Indices, ParameterSet, Voicing};

// Bytes 2 to 7, which every set has.
fn read_indices(bytes: &[u8; 11]) -> Indices
    ensures { result ≡ read_indices bytes.now }
{
    Indices {
        l1: bytes[2],
        l2: bytes[3],
        l3: bytes[4],
        l4: bytes[5],
        g2: bytes[6],
        g1: bytes[7],
    }
}

// Bytes 1 and 8 to 10, which only a voiced set has.
fn read_voicing(bytes: &[u8; 11]) -> Voicing
    ensures { result ≡ read_voicing bytes.now }
{
    Voicing {
        pitch: bytes[1],
        bandpass: bytes[8],
        fourier: bytes[9],
        aperiodic: bytes[10],
    }
}

// Whether eleven bytes are those of the unvoiced set of their indices: 0 in the first and in all that it lacks.
fn is_unvoiced(bytes: &[u8; 11]) -> bool
    ensures { result ≡ same bytes.now (bytes_of (Unvoiced (read_indices bytes.now))) }
{
    *bytes == write(ParameterSet::Unvoiced(read_indices(bytes)))
}

// The set that bytes are those of. Refused: 5, bytes that are not those of a set.
pub fn read(bytes: &[u8]) -> Result<ParameterSet, Refusal>
    ensures { result ≡ read_answer bytes.now }
{
    let Some(bytes) = bytes.as_array::<11>() else {
        return Err(Refusal::OutOfRange);
    };
    if bytes[0] == 1 {
        return Ok(ParameterSet::Voiced(read_indices(bytes), read_voicing(bytes)));
    }
    if is_unvoiced(bytes) {
        return Ok(ParameterSet::Unvoiced(read_indices(bytes)));
    }
    Err(Refusal::OutOfRange)
}
