// A part of a line.
ghost use Rattle.std.specs.Prelude.{◌≡◌, ℕ, List};

use std::marker::Model;

/// A part of a line: a name, an operand, or the text of `.ascii` as it is written.
#[derive(Debug, Drop)]
pub struct Part<'a> {
    bytes: &'a [u8],
}

impl<'a> Model for Part<'a> {
    ghost Value = { List ℕ };

    ghost view = { λ p. p.bytes.now };
}

impl<'a> Part<'a> {
    /// The part of these bytes.
    pub fn new(bytes: &'a [u8]) -> Part<'a>
        ensures { result ≡ bytes.now }
    {
        Part { bytes }
    }

    /// The bytes of the part.
    pub fn as_slice(&self) -> &'a [u8]
        ensures { result.now ≡ self.now }
    {
        self.bytes
    }
}
