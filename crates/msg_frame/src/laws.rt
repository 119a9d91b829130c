//! Laws of streams, each as the contract of a function that does nothing.
ghost use Rattle.msg_frame.specs.Laws.{PiecesJoin, BytesDecide, CutsAgree, MessagesAreShort};

/// By lines and by length, two pieces are cut as one, and refused as one.
pub fn pieces_join()
    ensures { PiecesJoin }
{}

/// By lines and by length, messages, rest and refusal depend on the joined bytes alone.
pub fn bytes_decide()
    ensures { BytesDecide }
{}

/// By lines and by length, two cuts of the same bytes into pieces have the same messages.
pub fn cuts_agree()
    ensures { CutsAgree }
{}

/// No message is longer than [`crate::MAX_MESSAGE`], and no rest longer than that and a number.
pub fn messages_are_short()
    ensures { MessagesAreShort }
{}
