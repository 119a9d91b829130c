// What a session that follows came to.

/// What a turn of a session that follows came to.
#[derive(Clone, Copy, Debug, PartialEq, Eq)]
pub enum Turned {
    /// It follows still.
    GoesOn,
    /// It is released, and can be served on.
    Released,
    /// It is released where its program ended itself with this code.
    Exits(u32),
}
