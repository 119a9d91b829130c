// What one word may be: a name, or a number.
ghost use Rattle.std.specs.Prelude.{◌≡◌};
ghost use Rattle.std.specs.Char.{is_ascii_digit};
ghost use Rattle.std.specs.List.{list_all};
ghost use Rattle.command_line.specs.Texts.{is_dashed, is_name, is_numeral, number_of};

/// The byte `-`.
pub const DASH: u8 = b'-';

/// The byte `0`.
pub const ZERO: u8 = b'0';

// Whether a word begins with a dash.
pub(crate) fn begins_with_dash(text: &str) -> bool
    ensures { result ≡ is_dashed text.now }
{
    match text.as_bytes() {
        [] => false,
        [first, ..] => *first == DASH,
    }
}

/// Whether a word may stand as a name: it isn't empty, and doesn't begin with a dash.
pub fn is_name(text: &str) -> bool
    ensures { result ≡ is_name text.now }
{
    match text.as_bytes() {
        [] => false,
        [first, ..] => *first != DASH,
    }
}

// Whether all bytes are decimal digits.
fn are_digits(text: &[u8]) -> bool
    ensures { result ≡ list_all is_ascii_digit text.now }
{
    text.iter().all(|byte| byte.is_ascii_digit())
}

// Whether a word is decimal digits with no leading zero.
fn is_plain(text: &[u8]) -> bool
    ensures { result ≡ is_numeral text.now }
{
    match text {
        [] => false,
        [first] => first.is_ascii_digit(),
        [first, ..] => *first != ZERO && are_digits(text),
    }
}

/// The number that a word writes in decimal digits, without sign or leading zero. `None` where it writes none below 2^64.
pub fn number(text: &str) -> Option<u64>
    ensures { result ≡ number_of text.now }
{
    if !is_plain(text.as_bytes()) {
        return None;
    }
    match text.parse::<u64>() {
        Ok(n) => Some(n),
        Err(_) => None,
    }
}
