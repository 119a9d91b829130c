// Numbers of two and four bytes, the lowest byte first.
ghost use Rattle.std.specs.Prelude.{◌≡◌, ◌<◌, ◌^◌, length};
ghost use Rattle.cow_pages.specs.Little.{little_bytes, little_number};

// The number of two bytes.
#[inline(always)]
pub fn half_of(bytes: &[u8]) -> u16
    requires { length bytes.now ≡ 2 }
    ensures { result ≡ little_number bytes.now }
{
    match *bytes {
        [low, high] => u16::from(low) + 256 * u16::from(high),
        _ => unreachable!(),
    }
}

// The number of four bytes.
#[inline(always)]
pub fn word_of(bytes: &[u8]) -> u32
    requires { length bytes.now ≡ 4 }
    ensures { result ≡ little_number bytes.now }
{
    match *bytes {
        [a, b, c, d] => {
            u32::from(a) + 256 * (u32::from(b) + 256 * (u32::from(c) + 256 * u32::from(d)))
        }
        _ => unreachable!(),
    }
}

// The two bytes of a number.
#[inline(always)]
pub fn half_bytes(value: u16) -> [u8; 2]
    ensures { result ≡ little_bytes 2 value }
{
    [(value % 256) as u8, (value / 256 % 256) as u8]
}

// The four bytes of a number.
#[inline(always)]
pub fn word_bytes(value: u32) -> [u8; 4]
    ensures { result ≡ little_bytes 4 value }
{
    [
        (value % 256) as u8,
        (value / 256 % 256) as u8,
        (value / 256 / 256 % 256) as u8,
        (value / 256 / 256 / 256 % 256) as u8,
    ]
}
