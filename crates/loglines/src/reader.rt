// The text reader: a text where it lies, and how far it has been read, in bytes and in lines. A reader is only made and moved
// on. What it looks at is read by functions over plain slices.
ghost use Rattle.std.specs.Prelude.{◌≡◌};

#[derive(Drop)]
pub struct Reader<'a> {
    pub src: &'a [u8],
    pub at: usize,
    pub line: usize,
}

impl<'a> Reader<'a> {
    // A reader at the front of a text, at its first line.
    pub fn new(src: &'a [u8]) -> Self
        ensures { (result.src ≡ src.entry) × (result.at ≡ 0) × (result.line ≡ 1) }
    {
        Reader {
            src,
            at: 0,
            line: 1,
        }
    }

    // The same text, at another offset and line.
    pub fn moved(self, at: usize, line: usize) -> Self
        ensures { (result.src ≡ self.entry.src) × (result.at ≡ at) × (result.line ≡ line) }
    {
        Reader {
            src: self.src,
            at,
            line,
        }
    }
}
