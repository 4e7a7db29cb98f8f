// The frames of an input: an order, and the sets that are packed in it.
ghost use Rattle.std.specs.Prelude.{◌≡◌, ◌++◌, ◌≤◌, length, drop};
ghost use Rattle.std.specs.Counts.{IsPrefixLen};
ghost use Rattle.bench_pack.specs.Inputs.{input_sent};

// The frames of all whole sets after the order to the front of `out`; where they end. A set that is refused, or a list that
// is no order, ends them.
pub(crate) fn pack_input(input: &[u8], out: &mut [u8]) -> usize
    requires { (length input.now ≤ 65581) × (length out.old ≡ 41699) }
    ensures end { result ≡ length (input_sent input.now) }
    ensures size { IsPrefixLen result out.new }
    ensures written { out.new ≡ input_sent input.now ++ drop result out.old }
{
    let Some((order, sets)) = input.split_first_chunk::<54>() else {
        return 0;
    };
    set_frames::pack_sets(sets, order, out).unwrap()
}
