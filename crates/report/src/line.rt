// A line in a lent buffer, and its parts.
use text::{Name, end_of};

// A line up to `end`. A part is put there where there is room for it.
#[derive(Drop)]
pub(crate) struct Line<'a> {
    pub(crate) out: &'a mut [u8],
    pub(crate) end: usize,
}

impl Line<'_> {
    ghost use Rattle.std.specs.Prelude.{◌+◌, ◌++◌, take};
    ghost use Rattle.text.specs.Text.{decimal};
    ghost use Rattle.report.specs.Adding.{Adds};

    // The first `width` bytes of a name.
    pub(crate) fn name(&mut self, name: Name, width: usize)
        ensures { Adds self.old (take width name) width self.new }
    {
        self.end = end_of(text::name(name, width, self.out, self.end), self.end);
    }

    // A name, and a number after it: of 64 bits, and of 8. They stay two, since each is one call; a trait for both kinds of
    // numbers would take more lines.
    pub(crate) fn number(&mut self, name: Name, width: usize, n: u64)
        ensures { Adds self.old (take width name ++ decimal n) (width + 20) self.new }
    {
        self.end = end_of(text::number(name, width, n, self.out, self.end), self.end);
    }

    pub(crate) fn byte(&mut self, name: Name, width: usize, n: u8)
        ensures { Adds self.old (take width name ++ decimal n) (width + 3) self.new }
    {
        self.end = end_of(text::byte(name, width, n, self.out, self.end), self.end);
    }
}
