// A sum as it is written.
ghost use Rattle.std.specs.Prelude.{◌≡◌};
ghost use Rattle.answer_sums.specs.Sums.{eight_bytes};

// A number in eight bytes, most significant first.
pub fn eight_bytes(n: u64) -> [u8; 8]
    ensures { result ≡ eight_bytes n }
{
    n.to_be_bytes()
}
