// The lines of frames. The buffer and the place stay two parameters, as in `text`: a struct of both would need a clause more in
// each, that it still lends the same buffer.
ghost use Rattle.std.specs.Prelude.{◌≡◌, ◌+◌, ◌*◌, ◌≤◌, length};
ghost use Rattle.text.specs.Placing.{Put};
ghost use Rattle.session.specs.Format.{hex_text, frame_line, frame_lines};
ghost use Rattle.session.specs.Writing.{any_padded};

use crate::hex::write_pair;

// The seven bytes of a frame in hexadecimal; where they end.
fn write_digits(frame: &[u8; 7], out: &mut [u8], at: usize) -> usize
    requires { at + 14 ≤ length out.old }
    ensures { Put out.old at (hex_text frame.now) out.new result }
{
    let mut end = at;
    for &b in frame {
        end = write_pair(b, out, end);
    }
    end
}

// The line of a frame.
fn write_line(frame: &[u8; 7], out: &mut [u8], at: usize) -> usize
    requires { at + 17 ≤ length out.old }
    ensures { Put out.old at (frame_line frame.now) out.new result }
{
    out[at] = b'f';
    out[at + 1] = b'=';
    let end = write_digits(frame, out, at + 2);
    out[end] = b'\n';
    end + 1
}

// The lines of all frames.
pub(crate) fn write_lines(frames: &[[u8; 7]], out: &mut [u8], at: usize) -> usize
    requires { at + 17 * length frames.now ≤ length out.old }
    ensures { Put out.old at (frame_lines frames.now) out.new result }
{
    let mut end = at;
    for frame in frames {
        end = write_line(frame, out, end);
    }
    end
}

// Whether one of a frame's last two bits is set in any of the frames.
pub(crate) fn has_padding(frames: &[[u8; 7]]) -> bool
    ensures { result ≡ any_padded frames.now }
{
    frames.iter().any(|frame| frame[6] % 4 != 0)
}
