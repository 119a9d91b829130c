// The counts of a run.

/// How far a run has come.
#[derive(Clone, Copy, Debug, PartialEq, Eq)]
pub struct Marks {
    /// The items taken.
    pub taken: u64,
    /// The instructions since the last item was taken, or since the start.
    pub since: u64,
    /// The instructions done.
    pub steps: u64,
    /// The answers of the allocator.
    pub choices: u64,
    /// The sends made.
    pub sends: u64,
}
