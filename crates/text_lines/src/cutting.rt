// How a text is cut.
ghost use Rattle.std.specs.Prelude.{◌≡◌, ◌+◌, length, drop, bytes_eq};
ghost use Rattle.text_lines.specs.Lines.{first_line, behind_line, is_line};

const LINE_FEED: u8 = b'\n';

/// The first line of a text, with its line feed where it has one, and the text behind it.
pub fn split_line(text: &[u8]) -> (&[u8], &[u8])
    ensures line { result.0.now ≡ first_line text.now }
    ensures rest { result.1.now ≡ behind_line text.now }
{
    for (i, byte) in text.iter().enumerate() {
        if *byte == LINE_FEED {
            return text.split_at(i + 1);
        }
    }
    (text, &[])
}

/// Whether some bytes end with a line feed, and hold no other one.
pub fn is_line(bytes: &[u8]) -> bool
    ensures { result ≡ is_line bytes.now }
{
    for (i, byte) in bytes.iter().enumerate() {
        if *byte == LINE_FEED {
            return i + 1 == bytes.len();
        }
    }
    false
}

/// What stands behind so many bytes, if there are as many.
pub fn behind(bytes: &[u8], count: usize) -> &[u8]
    ensures { result.now ≡ drop count bytes.now }
{
    if bytes.len() <= count {
        return &[];
    }
    let (_, behind) = bytes.split_at(count);
    behind
}

/// Whether a text is a line.
pub fn is_same(text: &[u8], line: &[u8]) -> bool
    ensures { result ≡ bytes_eq text.now line.now }
{
    text == line
}
