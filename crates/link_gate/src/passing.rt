// Replies go out through a link, one piece after another.
ghost use Rattle.std.specs.Prelude.{◌≡◌, ◌+◌, ◌≤◌, List, length, None};
ghost use Rattle.rx_base.specs.Sends.{Send, sent_to};
ghost use Rattle.reply_ledger.specs.Ledger.{IsOpened, NotBefore, stamps_of, stamped_to, passed_to};
ghost use Rattle.session_history.specs.Heeding.{received};
ghost use Rattle.session_history.specs.Owing.{Moment, journal};
ghost use Rattle.session_history.specs.Lawful.{Rules};
ghost use Rattle.session_history.specs.Giving.{IsReady, IsClosing, Passes, PassesRest};
ghost use Rattle.link_gate.specs.Passing.{MayPass, KeepsPassing};
ghost use Rattle.link_gate.specs.Noting.{IsWithin, IsNoted};

use crate::PassFault;
use links::{Given, Link, LinkFault};
use reply_ledger::Replies;
use rx_base::Conn;

/// Passes what was sent to open connections with so many items taken, or fewer, in the order of the sends: of each what its
/// connection wasn't passed yet, as one piece. `stamp` is the number of items received so far. A connection that is gone
/// is passed nothing more.
///
/// # Errors
///
/// `WriteFault` only where the link's count of failed gives rose; `Memory`. Some of it may have been passed.
pub fn pass_until<K: Link>(
    replies: &mut Replies,
    link: &mut K,
    until: u64,
    stamp: u64,
) -> Result<(), PassFault>
    requires { MayPass stamp (K.seen link.old) replies.old }
    ensures passes { (rules : Rules) (sends : List Send) (moment : Moment) → received rules.bounds (journal moment) ≡ stamp → IsReady rules sends moment until replies.old
        → Passes rules sends moment until replies.new (K.seen link.old).told (K.seen link.new) result }
    ensures keeps { KeepsPassing stamp (K.seen link.old) (K.seen link.new) replies.old replies.new result }
    ensures went { K.Went link.old link.new }
{
    'pieces: while let Some((conn, bytes)) = replies.next_piece(until) {
        replies.sound();
        let count = bytes.len();
        let given = link.give(conn, bytes);
        match note(replies, conn, count, given, stamp) {
            Ok(()) => {}
            Err(fault) => return Err(fault),
        }
    }
    Ok(())
}

/// Passes all that was sent to a connection whose close was just received and which isn't marked closed yet, unless it is gone.
///
/// # Errors
///
/// As of `pass_until`.
pub fn pass_rest<K: Link>(
    replies: &mut Replies,
    link: &mut K,
    conn: Conn,
    stamp: u64,
) -> Result<(), PassFault>
    requires may { MayPass stamp (K.seen link.old) replies.old }
    requires opened { IsOpened replies.old conn }
    ensures passes { (rules : Rules) (sends : List Send) (moment : Moment) → received rules.bounds (journal moment) ≡ stamp → IsClosing rules sends moment conn replies.old
        → PassesRest rules sends moment conn replies.new (K.seen link.old).told (K.seen link.new) result }
    ensures keeps { KeepsPassing stamp (K.seen link.old) (K.seen link.new) replies.old replies.new result }
    ensures opened { IsOpened replies.new conn }
    ensures went { K.Went link.old link.new }
{
    'pieces: while replies.is_open(conn) {
        let Some(bytes) = replies.rest_of(conn) else {
            return Ok(());
        };
        let count = bytes.len();
        let given = link.give(conn, bytes);
        match note(replies, conn, count, given, stamp) {
            Ok(()) => {}
            Err(fault) => return Err(fault),
        }
    }
    Ok(())
}

/// Notes what a link answered to the next so many bytes of a connection's stream.
#[tactic(auto, using(crate::proofs::NotingLemmas::known_passed))]
fn note(
    replies: &mut Replies,
    conn: Conn,
    count: usize,
    given: Result<Given, LinkFault>,
    stamp: u64,
) -> Result<(), PassFault>
    requires survivor { replies.old.trial ≡ None }
    requires opened { IsOpened replies.old conn }
    requires sent { length (passed_to replies.old conn) + count ≤ length (sent_to conn replies.old.kept) }
    requires later { NotBefore stamp (stamps_of (stamped_to replies.old.connections conn)) }
    requires within { IsWithin count given }
    ensures { IsNoted stamp conn count replies.old replies.new given result }
{
    match given {
        Ok(Given::All) => match replies.passed(conn, count, stamp) {
            Ok(()) => Ok(()),
            Err(_) => Err(PassFault::Memory),
        },
        Ok(Given::Gone(front)) => match replies.passed(conn, front, stamp) {
            Ok(()) => {
                replies.gone(conn);
                Ok(())
            }
            Err(_) => Err(PassFault::Memory),
        },
        Err(LinkFault::WriteFault) => Err(PassFault::WriteFault),
        Err(_) => Err(PassFault::Memory),
    }
}
