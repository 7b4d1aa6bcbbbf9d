// Where a text parts: at a byte, at the end of a line, behind a key.
ghost use Rattle.std.specs.Prelude.{◌≡◌};
ghost use Rattle.lines.specs.Find.{find, line_length, starts_with, value_behind};

// The index of the first such byte, or the text's length where there is none. A number and no Option: what it promises, as
// docs/CONTRACTS.md has it, is `find`, which gives a number for every text.
pub fn find_byte(text: &[u8], byte: u8) -> usize
    ensures { result ≡ find byte text.now }
{
    text.iter().position(|b| *b == byte).unwrap_or(text.len())
}

// The length of the text's first line, without its LF. Bytes without an LF are no line: they are read as an empty one, which
// no key fits.
// A number and no Option: what it promises, line_length of specs/, is 0 there.
#[tactic(auto, unfolding(crate::specs::Find::line_length))]
pub fn line_length(text: &[u8]) -> usize
    ensures { result ≡ line_length text.now }
{
    let end = find_byte(text, b'\n');
    if end < text.len() { end } else { 0 }
}

#[tactic(auto, using(crate::proofs::Parts::starts_as))]
pub fn starts_with(text: &[u8], key: &[u8]) -> bool
    ensures { result ≡ starts_with key.now text.now }
{
    text.starts_with(key)
}

// The part of a line behind its key. A line without the key has the empty part, which is neither a number nor a list: document
// 01 asks for a sub-slice of the lent text, so it is no Option.
#[tactic(auto, using(crate::proofs::Parts::value_stripped))]
pub fn value<'a>(line: &'a [u8], key: &[u8]) -> &'a [u8]
    ensures { result.now ≡ value_behind key.now line.now }
{
    line.strip_prefix(key).unwrap_or(&line[..0])
}
