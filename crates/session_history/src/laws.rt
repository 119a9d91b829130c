//! Laws of sessions, each as the contract of a function that does nothing.
ghost use Rattle.session_history.specs.Laws.{OneMoreHeeded, RefusedUnheeded, NothingIsSound, SessionBegins, SurvivorGoesOn, EventIsTaken, PieceIsPassed, SurvivorIsAdopted, SessionEnds, LastIsPassed, EndHasAccount, BreakHasAccount, EndPassedAll};

/// Behind events that are all heeded, one more is heeded unless it is refused.
pub fn one_more_heeded()
    ensures { OneMoreHeeded }
{}

/// An event that is refused isn't heeded.
pub fn refused_unheeded()
    ensures { RefusedUnheeded }
{}

/// Where nothing came before a session, that is sound.
pub fn nothing_is_sound()
    ensures { NothingIsSound }
{}

/// A session serves from the start of its image, or from where a sound part before it stood.
pub fn session_begins()
    ensures { SessionBegins }
{}

/// It serves on while its survivor goes on, and makes no move where it owes something.
pub fn survivor_goes_on()
    ensures { SurvivorGoesOn }
{}

/// And when an event is taken that is due where its survivor stands.
pub fn event_is_taken()
    ensures { EventIsTaken }
{}

/// And when a piece is passed that is due there.
pub fn piece_is_passed()
    ensures { PieceIsPassed }
{}

/// And when another survivor is adopted, which emits what was passed.
pub fn survivor_is_adopted()
    ensures { SurvivorIsAdopted }
{}

/// A session may come to its end at any time.
pub fn session_ends()
    ensures { SessionEnds }
{}

/// There, pieces are passed that are due at an end.
pub fn last_is_passed()
    ensures { LastIsPassed }
{}

/// At any time there is an account of the session.
pub fn end_has_account()
    ensures { EndHasAccount }
{}

/// Also where a piece breaks off.
pub fn break_has_account()
    ensures { BreakHasAccount }
{}

/// At an end at which nothing is owed, each connection still open was passed all that was sent to it.
pub fn end_passed_all()
    ensures { EndPassedAll }
{}
