//! A law of sessions, as the contract of a function that does nothing.
ghost use Rattle.session_state.specs.Noted.{NotedIsTold};

/// A session has a telling by the episodes that its notes have, of all of its journal.
pub fn noted_is_told()
    ensures { NotedIsTold }
{}
