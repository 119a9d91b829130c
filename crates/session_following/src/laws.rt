//! Laws of a session that follows, each as the contract of a function that does nothing.
ghost use Rattle.session_following.specs.Laws.{UpToIsExact, HeldGrows, SentIsHeld, NotReachedStays};
ghost use Rattle.session_following.specs.Answers.{NeitherIsSaid, FilesAndClients};

/// Up to a count of items the plan up to it says the same as the whole one.
pub fn up_to_is_exact()
    ensures { UpToIsExact }
{}

/// Of one more send as much is held as the count of its connection has left.
pub fn held_grows()
    ensures { HeldGrows }
{}

/// A ledger has a send more, once as much of it is passed as is held.
pub fn sent_is_held()
    ensures { SentIsHeld }
{}

/// A run that hasn't reached what was handed over hasn't with more items either.
pub fn not_reached_stays()
    ensures { NotReachedStays }
{}

/// A second host that takes over says neither that the files are of another run, nor that clients have more than was sent.
pub fn neither_is_said()
    ensures { NeitherIsSaid }
{}

/// Where a run has reached what the files tell, and no client has more than it sent, it has reached all that was handed over.
pub fn files_and_clients()
    ensures { FilesAndClients }
{}
