//! Laws of accounts and ends, each as the contract of a function that does nothing.
ghost use Rattle.session_history.specs.AccountLaws.{SentIsPassed, ServedIsPassed, LinksOpenOnce, OneEnd, NoOtherAnswer};

/// What the program of a session sent was passed, one piece for each send.
pub fn sent_is_passed()
    ensures { SentIsPassed }
{}

/// So it is at each end of a session.
pub fn served_is_passed()
    ensures { ServedIsPassed }
{}

/// A link whose events are in order opens no connection again.
pub fn links_open_once()
    ensures { LinksOpenOnce }
{}

/// A session has one end: no two answers have their cause in one journal.
pub fn one_end()
    ensures { OneEnd }
{}

/// Where every event is heeded and the link refuses nothing, no other answer can come.
pub fn no_other_answer()
    ensures { NoOtherAnswer }
{}
