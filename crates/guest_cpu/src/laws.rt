//! Laws of a guest and the run that it is, each as the contract of a function that does nothing.
//!
//! One can rest on them: a guest that stands where a served run does still does so behind each of its calls.
//! Which pages a run writes between two places is fixed by these, in whatever environments it went on the way.
ghost use Rattle.guest_cpu.specs.Laws.{AsksWants, RunsServe, RunsStart, RunsWrite, TakesServe, TakesWrite, WritesOnce};
ghost use Rattle.guest_cpu.specs.Serving.{TurnsServe};

/// Each turn of a guest, up to its next item, is one more instruction of a served run.
pub fn turns_serve()
    ensures { TurnsServe }
{}

/// A guest at its start is the run of no instruction.
pub fn runs_start()
    ensures { RunsStart }
{}

/// A guest that runs to its next event is a run that goes on.
pub fn runs_serve()
    ensures { RunsServe }
{}

/// The pages that it has marked as written are those that the run writes.
pub fn runs_write()
    ensures { RunsWrite }
{}

/// The pages that a run writes from one place to another are fixed by these two.
pub fn writes_once()
    ensures { WritesOnce }
{}

/// A guest that asks for an item takes it.
pub fn takes_serve()
    ensures { TakesServe }
{}

/// A guest that takes an item writes its bytes.
pub fn takes_write()
    ensures { TakesWrite }
{}

/// Where a run asks for an item, its guest's instruction is a recv whose buffer may be written.
pub fn asks_wants()
    ensures { AsksWants }
{}
