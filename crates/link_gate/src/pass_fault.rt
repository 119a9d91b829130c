// Why passing stops.

/// Why not all was passed.
#[derive(Clone, Copy, Debug, PartialEq, Eq)]
pub enum PassFault {
    /// Giving a piece failed: the link's count of failed gives rose.
    WriteFault,
    /// Memory ran out.
    Memory,
}
