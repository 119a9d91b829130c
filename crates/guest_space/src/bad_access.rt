// The failure of an access.

/// A byte that an access touches is in no area that permits it, or lies past 2^32.
#[derive(Clone, Copy, Debug, PartialEq, Eq)]
pub struct BadAccess;
