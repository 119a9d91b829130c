// Why a session stops.
ghost use Rattle.std.specs.Prelude.{◌≡◌};
ghost use Rattle.session_history.specs.Ends.{answer_of, break_answer, end_answer};

use run_history::{Answer, Cause};
use rx_base::Conn;

/// An end that a session comes to: what is held back is passed then.
#[derive(Clone, Copy, Debug, PartialEq, Eq)]
pub enum SessionEnd {
    /// The program asked for an item, and the input was at its end.
    Finished,
    /// The program ended itself with this code.
    Exited(u32),
    /// The program failed with so many items taken, and nothing helped.
    GaveUp { point: u64, cause: Cause },
    /// The input has no frame at this offset, by the number of the refusal.
    InputRefused { kind: u8, offset: u64 },
    /// A message of this connection is too long.
    MessageTooLong { conn: Conn },
    /// More items came than a session may receive.
    LimitItems,
    /// More events came than a session may have.
    LimitEvents,
}

/// A fault of the outside, or want of memory.
#[derive(Clone, Copy, Debug, PartialEq, Eq)]
pub enum SessionBreak {
    /// A read of the input failed.
    ReadFault,
    /// A write to the output failed.
    WriteFault,
    /// A call on a file failed.
    FileFault,
    /// Memory ran out.
    Memory,
}

/// Why a session stops.
#[derive(Clone, Copy, Debug, PartialEq, Eq)]
pub enum Stop {
    /// It came to one of its ends: what is held back is passed then.
    Ends(SessionEnd),
    /// It was broken off: nothing more is passed.
    Breaks(SessionBreak),
}

impl SessionEnd {
    // An end of a session, as the answer of a command.
    fn answer(self) -> Answer
        ensures { result ≡ end_answer self }
    {
        match self {
            SessionEnd::Finished => Answer::Finished,
            SessionEnd::Exited(code) => Answer::Exited(code),
            SessionEnd::GaveUp { point, cause } => Answer::GaveUp { point, cause },
            SessionEnd::InputRefused { kind, offset } => Answer::InputRefused { kind, offset },
            SessionEnd::MessageTooLong { conn } => Answer::MessageTooLong { conn },
            SessionEnd::LimitItems => Answer::LimitItems,
            SessionEnd::LimitEvents => Answer::LimitEvents,
        }
    }
}

impl SessionBreak {
    /// What broke a session off, as the answer of a command.
    pub fn answer(self) -> Answer
        ensures { result ≡ break_answer self }
    {
        match self {
            SessionBreak::ReadFault => Answer::ReadFault,
            SessionBreak::WriteFault => Answer::WriteFault,
            SessionBreak::FileFault => Answer::FileFault,
            SessionBreak::Memory => Answer::Memory,
        }
    }
}

impl Stop {
    /// Why a session stopped, as the answer of a command.
    pub fn answer(self) -> Answer
        ensures { result ≡ answer_of self }
    {
        match self {
            Stop::Ends(end) => end.answer(),
            Stop::Breaks(why) => why.answer(),
        }
    }
}
