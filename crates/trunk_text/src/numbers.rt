// Decimal numbers of connections, read and written.
ghost use Rattle.std.specs.Prelude.{◌≡◌, ◌≤◌, ◌++◌, None, Some, MatchOption, OnOk};
ghost use Rattle.trunk_text.specs.Numbers.{is_digit, begins_with_digit, digits_from, number, digit, five_digits, zeros, decimal};

/// Whether a byte is a decimal digit.
pub(crate) fn is_digit(byte: u8) -> bool
    ensures { result ≡ is_digit byte }
{
    b'0' <= byte && byte <= b'9'
}

fn begins_with_digit(bytes: &[u8]) -> bool
    ensures { result ≡ begins_with_digit bytes.now }
{
    match bytes {
        [] => false,
        [first, ..] => is_digit(*first),
    }
}

// The number that goes on with the digits in front, and what stands behind them.
fn digits_from(value: u16, bytes: &[u8]) -> Option<(u16, &[u8])>
    ensures { MatchOption result (digits_from value bytes.now ≡ None) (λ read. digits_from value bytes.now ≡ Some (read.0, read.1.now)) }
{
    let mut number = u32::from(value);
    let mut rest = bytes;
    'digits: while let [byte, behind @ ..] = rest {
        if !is_digit(*byte) {
            return Some((number as u16, rest));
        }
        let more = 10 * number + u32::from(*byte - b'0');
        if more > 65535 {
            return None;
        }
        number = more;
        rest = behind;
    }
    Some((number as u16, rest))
}

/// The number in front of some bytes, and what stands behind it.
pub(crate) fn number(bytes: &[u8]) -> Option<(u16, &[u8])>
    ensures { MatchOption result (number bytes.now ≡ None) (λ read. number bytes.now ≡ Some (read.0, read.1.now)) }
{
    let [first, rest @ ..] = bytes else {
        return None;
    };
    if !is_digit(*first) {
        return None;
    }
    let again = begins_with_digit(rest);
    if *first == b'0' && again {
        return None;
    }
    digits_from(u16::from(*first - b'0'), rest)
}

fn digit(number: u16) -> u8
    ensures { result ≡ digit number }
{
    b'0' + (number % 10) as u8
}

fn five_digits(number: u16) -> [u8; 5]
    ensures { result ≡ five_digits number }
{
    [
        digit(number / 10000),
        digit(number / 1000),
        digit(number / 100),
        digit(number / 10),
        digit(number),
    ]
}

fn zeros(number: u16) -> usize
    ensures zeros { result ≡ zeros number }
    ensures few { result ≤ 4 }
{
    if number < 10 {
        return 4;
    }
    if number < 100 {
        return 3;
    }
    if number < 1000 {
        return 2;
    }
    if number < 10000 {
        return 1;
    }
    0
}

/// Puts a number behind a text.
pub(crate) fn push_number(text: &mut Vec<u8>, number: u16) -> Result<(), std::alloc::AllocError>
    ensures { OnOk result (text.new.items ≡ text.old.items ++ decimal number) }
{
    let digits = five_digits(number);
    let (_, shown) = digits.split_at(zeros(number));
    text.extend_from_slice(shown)
}
