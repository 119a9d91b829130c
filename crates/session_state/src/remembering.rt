// What came before a session, for proofs alone. It takes no memory, and nothing is done for it at run time.
ghost use Rattle.std.specs.Prelude.{◌≡◌};
ghost use Rattle.std.specs.Borrow.{ftrue};
ghost use Rattle.session_history.specs.Heeding.{Before, nothing_before};
ghost use Rattle.session_state.specs.Past.{before_code};

use std::marker::Model;

/// A value that tells what came before a session.
pub trait Remembers {
    ghost before: { Self → Before };
}

/// What came before a session, for proofs alone.
#[derive(Drop)]
pub struct Past {
    pub ghost before: { Before } by { before_code },
}

impl Model for Past {
    ghost also_owns = { λ _. ftrue };
}

impl Past {
    /// What is told by this value.
    pub fn of<X: Remembers>(_x: &X) -> Past
        ensures { result.before ≡ X.before _x.now }
    {
        Past {}
    }
}

/// Before a session that begins with its link there was nothing.
#[derive(Drop)]
pub struct Nothing;

impl Remembers for Nothing {
    ghost before = { λ _. nothing_before };
}
