// The bytes of a text, and how a part of a line is cut out of it.
ghost use Rattle.std.specs.Prelude.{◌≡◌, Some, None, MatchOption, option_copied};
ghost use Rattle.std.specs.List.{list_all};
ghost use Rattle.asm_lines.specs.Bytes.{
  is_blank,
  is_allowed,
  is_digit,
  is_letter,
  begins_name,
  is_in_name,
  is_name,
  skip_blanks,
  strip_blanks,
  trimmed,
  first_word,
  behind_word,
  cut,
  ended,
};

/// A space or a tab.
pub fn is_blank(byte: u8) -> bool
    ensures { result ≡ is_blank byte }
{
    byte == b' ' || byte == b'\t'
}

/// Whether a line may have this byte.
pub fn is_allowed(byte: u8) -> bool
    ensures { result ≡ is_allowed byte }
{
    byte == b'\t' || (b' ' <= byte && byte <= b'~')
}

/// A decimal digit.
pub fn is_digit(byte: u8) -> bool
    ensures { result ≡ is_digit byte }
{
    b'0' <= byte && byte <= b'9'
}

fn is_letter(byte: u8) -> bool
    ensures { result ≡ is_letter byte }
{
    (b'A' <= byte && byte <= b'Z') || (b'a' <= byte && byte <= b'z')
}

fn begins_name(byte: u8) -> bool
    ensures { result ≡ begins_name byte }
{
    is_letter(byte) || byte == b'_'
}

fn is_in_name(byte: u8) -> bool
    ensures { result ≡ is_in_name byte }
{
    begins_name(byte) || is_digit(byte)
}

// Whether a name may go on with these bytes.
fn are_in_name(bytes: &[u8]) -> bool
    ensures { result ≡ list_all is_in_name bytes.now }
{
    bytes.iter().all(|byte| is_in_name(*byte))
}

/// Whether these bytes are a name, as a label has one.
pub fn is_name(bytes: &[u8]) -> bool
    ensures { result ≡ is_name bytes.now }
{
    match bytes {
        [] => false,
        [first, rest @ ..] => begins_name(*first) && are_in_name(rest),
    }
}

/// The bytes without the blanks in front.
pub fn skip_blanks(bytes: &[u8]) -> &[u8]
    ensures { result.now ≡ skip_blanks bytes.now }
{
    let mut rest = bytes;
    'blanks: while let [first, behind @ ..] = rest {
        if !is_blank(*first) {
            return rest;
        }
        rest = behind;
    }
    rest
}

fn strip_blanks(bytes: &[u8]) -> &[u8]
    ensures { result.now ≡ strip_blanks bytes.now }
{
    let mut rest = bytes;
    'blanks: while let [front @ .., last] = rest {
        if !is_blank(*last) {
            return rest;
        }
        rest = front;
    }
    rest
}

/// The bytes without blanks at either end.
pub fn trimmed(bytes: &[u8]) -> &[u8]
    ensures { result.now ≡ trimmed bytes.now }
{
    strip_blanks(skip_blanks(bytes))
}

/// The bytes up to the first blank, and those from it on.
pub fn split_word(bytes: &[u8]) -> (&[u8], &[u8])
    ensures word { result.0.now ≡ first_word bytes.now }
    ensures rest { result.1.now ≡ behind_word bytes.now }
{
    for (i, byte) in bytes.iter().enumerate() {
        if is_blank(*byte) {
            return bytes.split_at(i);
        }
    }
    (bytes, &[])
}

/// What stands before the first of a byte, and what stands behind it.
pub fn cut(bytes: &[u8], mark: u8) -> Option<(&[u8], &[u8])>
    ensures { MatchOption result (cut mark bytes.now ≡ None) (λ parts. cut mark bytes.now ≡ Some (parts.0.now, parts.1.now)) }
{
    for (i, byte) in bytes.iter().enumerate() {
        if *byte == mark {
            let (front, _) = bytes.split_at(i);
            let (_, behind) = bytes.split_at(i + 1);
            return Some((front, behind));
        }
    }
    None
}

/// What stands before a byte that ends the bytes and occurs only there.
pub fn ended(bytes: &[u8], mark: u8) -> Option<&[u8]>
    ensures { option_copied result ≡ ended mark bytes.now }
{
    match cut(bytes, mark) {
        Some((front, [])) => Some(front),
        _ => None,
    }
}
