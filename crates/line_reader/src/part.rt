// Parts of a line.
ghost use Rattle.std.specs.Prelude.{◌+◌, ◌^◌, ◌<◌, length};

use lines::FormFault;

// Some bytes of a line, and the column of the first.
#[derive(Clone, Copy)]
pub(crate) struct Part<'a> {
    pub(crate) text: &'a [u8],
    pub(crate) column: usize,
    ghost placed: { column + length text.now < 2 ^ 64 },
}

impl<'a> Part<'a> {
    ghost use Rattle.std.specs.Prelude.{◌≡◌, ◌+◌, ◌≤◌, length};
    ghost use Rattle.lines.specs.Grammar.{fault_at};
    ghost use Rattle.line_reader.specs.Parts.{Split, Passes};

    // The column after the last byte.
    pub(crate) fn end(self) -> usize
        ensures { result ≡ self.entry.column + length self.entry.text.now }
    {
        self.column + self.text.len()
    }

    // The first bytes, and the others.
    pub(crate) fn split_at(self, bytes: usize) -> (Part<'a>, Part<'a>)
        requires { bytes ≤ length self.text.now }
        ensures { Split bytes self.entry result.0 result.1 }
    {
        let (first, others) = self.text.split_at(bytes);
        let first = Part {
            text: first,
            column: self.column,
        };
        let others = Part {
            text: others,
            column: self.column + bytes,
        };
        (first, others)
    }

    // The bytes after the first, which is the mark.
    pub(crate) fn after(self, mark: u8) -> Result<Part<'a>, FormFault>
        ensures { Passes mark self.entry result }
    {
        match self.text {
            [first, rest @ ..] if *first == mark => Ok(Part {
                text: rest,
                column: self.column + 1,
            }),
            _ => Err(self.fault()),
        }
    }

    // The fault at the first byte.
    pub(crate) fn fault(self) -> FormFault
        ensures { result ≡ fault_at self.entry.column }
    {
        FormFault {
            column: self.column,
        }
    }
}
