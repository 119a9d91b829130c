//! Laws of replays, each as the contract of a function that does nothing.
ghost use Rattle.replay.specs.Laws.{RecordIsReplayed, ReplayGivesSends, OnlyFaults, SessionLeavesRecord, OneStreamBrings, SessionIsReplayed};

/// No replay of a record over the items that its run was given says that the run doesn't go on as recorded.
pub fn record_is_replayed()
    ensures { RecordIsReplayed }
{}

/// A replay that is Finished stands where the recorded run ended, and has given the sends of that run.
pub fn replay_gives_sends()
    ensures { ReplayGivesSends }
{}

/// A replay of such a record is Finished, or there was a fault or want of memory, or the input was refused.
pub fn only_faults()
    ensures { OnlyFaults }
{}

/// What a session knows of its run is a record of it, at any time.
pub fn session_leaves_record()
    ensures { SessionLeavesRecord }
{}

/// A replay over the stream of events that a session had takes no event behind those of the recorded run.
pub fn one_stream_brings()
    ensures { OneStreamBrings }
{}

/// A session's record is replayed over the session's stream, to the same sends.
pub fn session_is_replayed()
    ensures { SessionIsReplayed }
{}
