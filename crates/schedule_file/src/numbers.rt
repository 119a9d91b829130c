// Hexadecimal digits, written and read.
ghost use Rattle.std.specs.Prelude.{◌≡◌, ◌≤◌, ◌<◌};
ghost use Rattle.schedule_file.specs.Lines.{hex_digit, eight_digits};
ghost use Rattle.schedule_file.specs.Telling.{hex_value};

// The lower-case hexadecimal digit of a number.
pub(crate) fn hex_digit(number: u32) -> u8
    requires { number < 16 }
    ensures { result ≡ hex_digit number }
{
    if number < 10 {
        number as u8 + b'0'
    } else {
        number as u8 - 10 + b'a'
    }
}

// Eight hexadecimal digits, the highest first.
pub(crate) fn eight_digits(number: u32) -> [u8; 8]
    ensures { result ≡ eight_digits number }
{
    let seventh = number / 16;
    let sixth = seventh / 16;
    let fifth = sixth / 16;
    let fourth = fifth / 16;
    let third = fourth / 16;
    let second = third / 16;
    let first = second / 16;
    [
        hex_digit(first % 16),
        hex_digit(second % 16),
        hex_digit(third % 16),
        hex_digit(fourth % 16),
        hex_digit(fifth % 16),
        hex_digit(sixth % 16),
        hex_digit(seventh % 16),
        hex_digit(number % 16),
    ]
}

// The number that a lower-case hexadecimal digit stands for; 0 for any other byte.
pub(crate) fn hex_value(byte: u8) -> u32
    ensures value { result ≡ hex_value byte }
    ensures bound { result ≤ 15 }
{
    match byte {
        b'0'..=b'9' => u32::from(byte - b'0'),
        b'a'..=b'f' => u32::from(byte - b'a') + 10,
        _ => 0,
    }
}
