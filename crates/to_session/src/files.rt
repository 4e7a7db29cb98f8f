// The session file of the bytes read.
ghost use Rattle.std.specs.Prelude.{◌≡◌, length};
ghost use Rattle.std.specs.Counts.{IsPrefixLen};
ghost use Rattle.session.specs.Format.{most_text};
ghost use Rattle.to_session.specs.Output.{most_input, AllWritten};

use text::end_of;

// The file, and the line of a refusal. from_session has a type like it, with frames for the file: what stands there is another thing,
// and one name for both would say neither.
#[derive(Clone, Copy, Debug, PartialEq, Eq)]
pub(crate) struct Written<'a> {
    pub(crate) file: &'a [u8],
    pub(crate) message: &'a [u8],
}

// The file and the line for the standard input of which the first `size` bytes of a buffer were read. The buffer comes whole, since
// its length says how much of a long input was read: `most_input` holds `main` to it.
pub(crate) fn write_file<'a>(
    input: &[u8],
    size: usize,
    file: &'a mut [u8],
    message: &'a mut [u8],
) -> Written<'a>
    requires input_len { (length input.now ≡ most_input) × IsPrefixLen size input.now }
    requires file_len { (length file.old ≡ most_text) × (length message.old ≡ 22) }
    ensures { AllWritten input.now size result.file.now result.message.now }
{
    match session::write(&input[..size], file) {
        Ok(end) => Written {
            file: &file[..end],
            message: &[],
        },
        Err(refusal) => {
            let end = end_of(value_lines::refusal_line(refusal.number(), message, 0), 0);
            Written {
                file: &[],
                message: &message[..end],
            }
        }
    }
}
