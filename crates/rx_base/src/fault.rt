// Why a call on the outside was not done.

/// A call on a source, a sink, a file or a listener was not done.
#[derive(Clone, Copy, Debug, PartialEq, Eq)]
pub enum IoFault {
    /// The object's own fault: its count of faults rose.
    Failed,
    /// Memory ran out.
    Memory,
}

/// A file was not loaded.
#[derive(Clone, Copy, Debug, PartialEq, Eq)]
pub enum LoadFault {
    /// The files' own fault, a missing name among them: their count of faults rose.
    Failed,
    /// The file has more bytes than the limit.
    TooLarge,
    /// Memory ran out.
    Memory,
}
