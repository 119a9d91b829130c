//! Laws of tables and verdicts, each as the contract of a function that does nothing.
ghost use Rattle.diagnosis.specs.Laws.{TableBegins, VerdictAdopts};

/// The whole table of a failure begins with the trials of the walk that follows.
pub fn table_begins()
    ensures { TableBegins }
{}

/// Where a session goes on as a trial, that trial's environment is the first of the verdict.
pub fn verdict_adopts()
    ensures { VerdictAdopts }
{}
