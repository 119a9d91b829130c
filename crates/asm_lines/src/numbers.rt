// Numbers, as far as a word holds them.
ghost use Rattle.std.specs.Prelude.{◌≡◌, ◌≤◌, ◌^◌, IfSome, IfOk, option_map, pos, ◌≤ℤ◌, negsuc};
ghost use Rattle.asm_lines.specs.Numbers.{decimal, hex_digit, hexadecimal_from, hexadecimal, signed_decimal, number_of, clipped, clipped_int};
ghost use Rattle.asm_lines.specs.Statements.{number};

use crate::bytes::is_digit;
use crate::flaw::Flaw;

// Greater than every number that has a place in a program.
const PAST: u64 = 1 << 32;

// The number of decimal digits; where it is PAST or more, PAST.
#[tactic(auto, unfolding(crate::specs::Numbers::decimal))]
fn decimal(digits: &[u8]) -> Option<u64>
    ensures value { result ≡ option_map clipped (decimal digits.now) }
    ensures bound { IfSome result (λ n. n ≤ 2 ^ 32) }
{
    if digits.is_empty() {
        return None;
    }
    let mut number: u64 = 0;
    'digits: for digit in digits {
        if !is_digit(*digit) {
            return None;
        }
        number = (10 * number + u64::from(*digit - b'0')).min(PAST);
    }
    Some(number)
}

fn hex_digit(byte: u8) -> Option<u8>
    ensures value { result ≡ hex_digit byte }
    ensures bound { IfSome result (λ n. n ≤ 15) }
{
    match byte {
        b'0'..=b'9' => Some(byte - b'0'),
        b'a'..=b'f' => Some(byte - b'a' + 10),
        b'A'..=b'F' => Some(byte - b'A' + 10),
        _ => None,
    }
}

// The number of hexadecimal digits; where it is PAST or more, PAST.
fn hexadecimal_digits(digits: &[u8]) -> Option<u64>
    ensures value { result ≡ option_map clipped (hexadecimal_from 0 digits.now) }
    ensures bound { IfSome result (λ n. n ≤ 2 ^ 32) }
{
    let mut number: u64 = 0;
    'digits: for digit in digits {
        let Some(value) = hex_digit(*digit) else {
            return None;
        };
        number = (16 * number + u64::from(value)).min(PAST);
    }
    Some(number)
}

// The number of one to eight hexadecimal digits.
#[tactic(auto, unfolding(crate::specs::Numbers::hexadecimal))]
fn hexadecimal(digits: &[u8]) -> Option<u64>
    ensures value { result ≡ option_map clipped (hexadecimal digits.now) }
    ensures bound { IfSome result (λ n. n ≤ 2 ^ 32) }
{
    if 1 <= digits.len() && digits.len() <= 8 {
        hexadecimal_digits(digits)
    } else {
        None
    }
}

#[tactic(auto, unfolding(crate::specs::Numbers::signed_decimal))]
fn signed_decimal(bytes: &[u8]) -> Option<i64>
    ensures { result ≡ option_map clipped_int (signed_decimal bytes.now) }
{
    match bytes {
        [] => None,
        [b'-', rest @ ..] => match decimal(rest) {
            Some(number) => Some(-(number as i64)),
            None => None,
        },
        _ => match decimal(bytes) {
            Some(number) => Some(number as i64),
            None => None,
        },
    }
}

/// The number that some bytes are. Where it lies past 2^32 on either side, 2^32 there.
#[tactic(auto, unfolding(crate::specs::Numbers::number_of))]
pub fn number_of(bytes: &[u8]) -> Option<i64>
    ensures { result ≡ option_map clipped_int (number_of bytes.now) }
{
    match bytes {
        [first, second, digits @ ..] => {
            if *first != b'0' || *second != b'x' {
                return signed_decimal(bytes);
            }
            match hexadecimal(digits) {
                Some(number) => Some(number as i64),
                None => None,
            }
        }
        _ => signed_decimal(bytes),
    }
}

/// The number that some bytes are, if it lies from a least to a greatest one.
#[tactic(auto, unfolding(crate::specs::Statements::number))]
pub fn number_within(least: i64, greatest: i64, bytes: &[u8]) -> Result<i64, Flaw>
    requires low { negsuc 4294967294 ≤ℤ least }
    requires high { greatest ≤ℤ pos 4294967295 }
    ensures value { result ≡ number least greatest bytes.now }
    ensures within { IfOk result (λ n. (least ≤ℤ n) × (n ≤ℤ greatest)) }
{
    let Some(number) = number_of(bytes) else {
        return Err(Flaw::BadOperand);
    };
    if number < least || greatest < number {
        return Err(Flaw::Range);
    }
    Ok(number)
}
