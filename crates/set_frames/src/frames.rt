// The frames of sets in bytes, one after another, in one order.
ghost use Rattle.std.specs.Prelude.{◌≡◌, suc, ◌++◌, ◌*◌, ◌≤◌, length, drop};
ghost use Rattle.set_frames.specs.Sending.{sets_in, set_answer, set_writes, sent, frames_answer, frames_writes};

use refusal::Refusal;

// The frame of set k to its place in `out`, and the next sync bit. Refused: 5, bytes that are not those of a set that a sender
// takes; 10, a list that is no order.
fn pack_set(
    bytes: &[u8; 11],
    k: usize,
    sync: bool,
    order: &[u8],
    out: &mut [u8],
) -> Result<bool, Refusal>
    requires { 7 * suc k ≤ length out.old }
    ensures answer { result ≡ set_answer order.now bytes.now sync }
    ensures written { out.new ≡ set_writes order.now bytes.now sync k out.old }
{
    let set = set_bytes::read(bytes)?;
    frame::pack(set, sync, order, &mut out[7 * k..])
}

// The frames of all whole sets to the front of `out`, by a sender that starts fresh; where they end. A set that
// is refused ends them.
fn pack_all(bytes: &[u8], order: &[u8], out: &mut [u8]) -> usize
    requires { 7 * sets_in bytes.now ≤ length out.old }
    ensures end { result ≡ length (sent order.now bytes.now) }
    ensures size { result ≤ length out.new }
    ensures written { out.new ≡ sent order.now bytes.now ++ drop result out.old }
{
    let mut sync = frame::fresh_sync();
    let (sets, _) = bytes.as_chunks::<11>();
    for (k, set) in sets.iter().enumerate() {
        let Ok(next) = pack_set(set, k, sync, order, out) else {
            return 7 * k;
        };
        sync = next;
    }
    7 * sets.len()
}

// The same, for any output. Refused: 1, an output that has room for fewer frames than there are sets.
pub fn pack_sets(bytes: &[u8], order: &[u8], out: &mut [u8]) -> Result<usize, Refusal>
    ensures answer { result ≡ frames_answer order.now bytes.now (length out.old) }
    ensures written { out.new ≡ frames_writes order.now bytes.now out.old }
{
    if out.len() / 7 < bytes.len() / 11 {
        return Err(Refusal::ShortOutput);
    }
    Ok(pack_all(bytes, order, out))
}
