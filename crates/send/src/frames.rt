// The frames of the sets, in the default order.
ghost use Rattle.std.specs.Prelude.{◌≡◌, ◌++◌, ◌*◌, ◌≤◌, length, drop};
ghost use Rattle.std.specs.Counts.{IsPrefixLen};
ghost use Rattle.order.specs.Order.{default_order};
ghost use Rattle.set_frames.specs.Sending.{sets_in, sent};

// The frames of all whole sets to the front of `out`, by a sender that starts fresh; where they end. A set that
// is refused ends them.
pub(crate) fn pack_sets(bytes: &[u8], out: &mut [u8]) -> usize
    requires { 7 * sets_in bytes.now ≤ length out.old }
    ensures end { result ≡ length (sent default_order bytes.now) }
    ensures size { IsPrefixLen result out.new }
    ensures written { out.new ≡ sent default_order bytes.now ++ drop result out.old }
{
    let order = order::default_order();
    set_frames::pack_sets(bytes, &order, out).unwrap()
}
