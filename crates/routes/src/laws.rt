//! Laws of sessions, replays and conversions over a trunk, each as the contract of a function that does nothing.
ghost use Rattle.routes.specs.EndLaws.{NoOtherEnd, SendsAreWritten};
ghost use Rattle.routes.specs.Laws.{ConvertsToItself, SameBytesAreReplayed, SessionIsConverted};
ghost use Rattle.routes.specs.WatchLaws.{NotedTablesAreTold, TablesBeginWithTries};

/// A session's record is replayed over the bytes that the session had, to the frames of its run's sends.
pub fn same_bytes_are_replayed()
    ensures { SameBytesAreReplayed }
{}

/// Where the input has the frames of events that are all heeded, no answer says that it is refused.
pub fn no_other_end()
    ensures { NoOtherEnd }
{}

/// At an end the frames of all sends were written, where nothing was held back or recovered.
pub fn sends_are_written()
    ensures { SendsAreWritten }
{}

/// A record of version 2 is converted to its own text, byte for byte.
pub fn converts_to_itself()
    ensures { ConvertsToItself }
{}

/// A session's record is converted over the bytes that the session had to the text of its run.
pub fn session_is_converted()
    ensures { SessionIsConverted }
{}

/// Each table that a watch tells of a session begins with the tries of the session's own walk.
pub fn tables_begin_with_tries()
    ensures { TablesBeginWithTries }
{}

/// At an end there is a table of each episode that was noted.
pub fn noted_tables_are_told()
    ensures { NotedTablesAreTold }
{}
