// Numbers at the front of some bytes.
ghost use Rattle.std.specs.Prelude.{◌≡◌, ◌≤◌, ◌-◌, ◌^◌, min};
ghost use Rattle.schedule_file.specs.Telling.{hex_value, hex_from, hex_at};
ghost use Rattle.text_lines.specs.Numbers.{number_from, behind_digits, clipped};
ghost use Rattle.report_reading.specs.Telling.{word_told, byte_told};

use text_lines::number_in_front;

// The bytes behind the decimal digits in front.
pub(crate) fn behind_digits(bytes: &[u8]) -> &[u8]
    ensures { result.now ≡ behind_digits bytes.now }
{
    number_in_front(bytes).1
}

// The number in front with 32 bits.
pub(crate) fn word_told(bytes: &[u8]) -> u32
    ensures { result ≡ word_told bytes.now }
{
    let (number, _) = number_in_front(bytes);
    if number < u64::from(u32::MAX) {
        number as u32
    } else {
        u32::MAX
    }
}

// The number in front with 8 bits.
pub(crate) fn byte_told(bytes: &[u8]) -> u8
    ensures { result ≡ byte_told bytes.now }
{
    let (number, _) = number_in_front(bytes);
    if number < u64::from(u8::MAX) {
        number as u8
    } else {
        u8::MAX
    }
}

// The number that a lower-case hexadecimal digit stands for; 0 for any other byte.
fn hex_value(byte: u8) -> u32
    ensures value { result ≡ hex_value byte }
    ensures bound { result ≤ 15 }
{
    match byte {
        b'0'..=b'9' => u32::from(byte - b'0'),
        b'a'..=b'f' => u32::from(byte - b'a') + 10,
        _ => 0,
    }
}

// The number of eight hexadecimal digits.
fn hex_number(digits: [u8; 8]) -> u32
    ensures { result ≡ hex_from 0 digits }
{
    let [a, b, c, d, e, f, g, h] = digits;
    let first = 16 * hex_value(a) + hex_value(b);
    let second = 16 * hex_value(c) + hex_value(d);
    let third = 16 * hex_value(e) + hex_value(f);
    let fourth = 16 * hex_value(g) + hex_value(h);
    0x100_0000 * first + 0x1_0000 * second + 0x100 * third + fourth
}

// The number of eight hexadecimal digits in front, or 0 where so many bytes don't stand there.
pub(crate) fn hex_in_front(bytes: &[u8]) -> u32
    ensures { result ≡ min (hex_at 0 bytes.now) (2 ^ 32 - 1) }
{
    let [a, b, c, d, e, f, g, h, ..] = bytes else {
        return 0;
    };
    hex_number([*a, *b, *c, *d, *e, *f, *g, *h])
}
