// A list of values, as contracts see it.
ghost use Rattle.std.specs.Prelude.{◌≡◌, List};

use std::marker::Model;

/// A list of values, which contracts see as a list.
#[derive(Debug, Drop)]
pub struct Listed<T> {
    values: Vec<T>,
}

impl<T> Model for Listed<T> {
    ghost Value = { List T };

    ghost view = { λ l. l.values.items };
}

impl<T> Listed<T> {
    /// The values of a vector, in its order.
    pub fn from_vec(v: Vec<T>) -> Listed<T>
        ensures { result ≡ v.items }
    {
        Listed { values: v }
    }

    /// The values, in their order.
    pub fn as_slice(&self) -> &[T]
        ensures { result.now ≡ self.now }
    {
        &self.values
    }
}

/// A list of bytes.
pub type Bytes = Listed<u8>;
