// Numbers by their bytes.
ghost use Rattle.std.specs.Prelude.{◌≡◌, ◌*◌, ◌^◌, ◌<◌, ◌≤◌, length};
ghost use Rattle.rv_isa.specs.Words.{little_number};

/// The number of at most four bytes, the lowest first.
#[inline(always)]
pub fn number_of(bytes: &[u8]) -> u32
    requires { length bytes.now ≤ 4 }
    ensures value { result ≡ little_number bytes.now }
    ensures few { result < 2 ^ (8 * length bytes.now) }
{
    match *bytes {
        [] => 0,
        [a] => u32::from(a),
        [a, b] => u32::from(a) + 256 * u32::from(b),
        [a, b, c] => u32::from(a) + 256 * (u32::from(b) + 256 * u32::from(c)),
        [a, b, c, d, ..] => u32::from(a)
            + 256 * (u32::from(b) + 256 * (u32::from(c) + 256 * u32::from(d))),
    }
}
