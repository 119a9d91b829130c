// A send of a session that follows.
ghost use Rattle.std.specs.Prelude.{◌≡◌, ◌<◌, ◌⊎◌, length, min, None, OnOk, OnErr};
ghost use Rattle.reply_ledger.specs.Ledger.{IsOpened, NotBefore, times_of, stamps_of, stamped_to, with_send};
ghost use Rattle.session_following.specs.Sending.{with_held};

use reply_ledger::Replies;
use rx_base::{Bytes, Conn};
use std::alloc::AllocError;

/// Notes a send, made with so many items taken. Clients have `left` more bytes of its connection than were sent before: so many of its first bytes, or all,
/// are passed at once, and nothing is given to a link.
///
/// # Errors
///
/// `AllocError`: want of memory. The send may be noted then, with nothing of it passed.
pub fn note_held(
    replies: &mut Replies,
    conn: Conn,
    bytes: Bytes,
    taken: u64,
    left: u64,
) -> Result<(), AllocError>
    requires opened { IsOpened replies.old conn }
    requires nonempty { 0 < length bytes }
    requires survivor { replies.old.trial ≡ None }
    requires later { NotBefore taken (times_of replies.old.kept) }
    requires stamped { NotBefore taken (stamps_of (stamped_to replies.old.connections conn)) }
    ensures ok { OnOk result (replies.new ≡ with_held replies.old (record { conn = conn; bytes = bytes; taken = taken }) (min left (length bytes))) }
    ensures err { OnErr result ((replies.new ≡ replies.old) ⊎ (replies.new ≡ with_send replies.old (record { conn = conn; bytes = bytes; taken = taken }))) }
{
    let all = bytes.as_slice().len() as u64;
    let count = left.min(all) as usize;
    replies.sound();
    if let Err(e) = replies.sent(conn, bytes, taken) {
        return Err(e);
    }
    if count == 0 {
        return Ok(());
    }
    replies.passed(conn, count, taken)
}
