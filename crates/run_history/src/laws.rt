//! Laws of whole runs, each as the contract of a function that does nothing.
ghost use Rattle.run_history.specs.Laws.{RunsCompose, RunsStay, OutputsGrow, ServedRuns, ServedStay};

/// A run of n + m instructions is a run of m from where a run of n ended.
pub fn runs_compose()
    ensures { RunsCompose }
{}

/// A run is unchanged by more items, and more answers of the allocator, behind its own.
pub fn runs_stay()
    ensures { RunsStay }
{}

/// The output of a run is a prefix of the output of each longer run, on each connection.
pub fn outputs_grow()
    ensures { OutputsGrow }
{}

/// A served run is a run: the answers of its environments are those that C allows.
pub fn served_runs()
    ensures { ServedRuns }
{}

/// A served run is unchanged by more items behind.
pub fn served_stay()
    ensures { ServedStay }
{}
