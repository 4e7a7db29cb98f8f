// The bytes of a set.
ghost use Rattle.std.specs.Prelude.{◌≡◌};
ghost use Rattle.set_bytes.specs.SetBytes.{bytes_of};

use sets::ParameterSet;

// The eleven bytes of a set, whatever its ranges.
pub fn write(set: ParameterSet) -> [u8; 11]
    ensures { result ≡ bytes_of set }
{
    match set {
        ParameterSet::Unvoiced(x) => [0, 0, x.l1, x.l2, x.l3, x.l4, x.g2, x.g1, 0, 0, 0],
        ParameterSet::Voiced(x, v) => [
            1,
            v.pitch,
            x.l1,
            x.l2,
            x.l3,
            x.l4,
            x.g2,
            x.g1,
            v.bandpass,
            v.fourier,
            v.aperiodic,
        ],
    }
}
