//! What a served run under a guard keeps to, each as the contract of a function that does nothing.
ghost use Rattle.heap_guard.specs.Guarded.{BlockRunsKeep, ExtentRunsKeep};

/// A run that was served under a guard of mode `Block` touches no byte of the heap outside of a block that is live then.
pub fn block_runs_keep()
    ensures { BlockRunsKeep }
{}

/// A run that was served under a guard of mode `Extent` touches no byte of the heap outside of the extent of a block that stands then.
pub fn extent_runs_keep()
    ensures { ExtentRunsKeep }
{}
