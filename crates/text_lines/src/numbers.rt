// Decimal numbers in front of bytes.
ghost use Rattle.std.specs.Prelude.{◌≡◌};
ghost use Rattle.text_lines.specs.Numbers.{number_from, behind_digits, clipped, first_number, second_number};

use crate::cutting::behind;

/// The number of the decimal digits in front, or the largest of its type where it is above that, and the bytes behind them.
pub fn number_in_front(bytes: &[u8]) -> (u64, &[u8])
    ensures number { result.0 ≡ clipped (number_from 0 bytes.now) }
    ensures rest { result.1.now ≡ behind_digits bytes.now }
{
    let mut number: u64 = 0;
    let mut rest = bytes;
    'digits: while let [byte, behind @ ..] = rest {
        if !byte.is_ascii_digit() {
            return (number, rest);
        }
        number = number
            .saturating_mul(10)
            .saturating_add(u64::from(*byte - b'0'));
        rest = behind;
    }
    (number, rest)
}

/// The number in front, and the one that stands behind it and one byte more, each as `number_in_front` tells it.
pub fn two_numbers(bytes: &[u8]) -> (u64, u64)
    ensures first { result.0 ≡ clipped (first_number bytes.now) }
    ensures second { result.1 ≡ clipped (second_number bytes.now) }
{
    let (first, rest) = number_in_front(bytes);
    let (second, _) = number_in_front(behind(rest, 1));
    (first, second)
}
