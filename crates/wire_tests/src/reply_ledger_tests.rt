// The reply ledger at values worked out by hand.
ghost use Rattle.std.specs.Prelude.{◌≡◌, ◌<◌, ◌≤◌, length, IfOk};
ghost use Rattle.reply_ledger.specs.Ledger.{no_replies, with_connection, with_passed, with_send};

use reply_ledger::Replies;
use rx_base::Bytes;
use std::alloc::{AllocError, Global};
use std::test::Fail;

fn text(alloc: Global, bytes: &[u8]) -> Result<Bytes, AllocError>
    ensures { IfOk result (λ text. text ≡ bytes.now) }
{
    Ok(Bytes::from_vec(bytes.to_vec(alloc)?))
}

// Opens connection 0, and sends it bytes with so many items taken.
#[tactic(auto, unfolding(reply_ledger::specs::Ledger::connection_of, reply_ledger::specs::Ledger::changed, reply_ledger::specs::Ledger::times_of, reply_ledger::specs::Ledger::stamps_of, reply_ledger::specs::Ledger::stamped_to, reply_ledger::specs::Ledger::bytes_of, reply_ledger::specs::Ledger::stamped))]
fn open_and_send(
    alloc: Global,
    replies: &mut Replies,
    bytes: &[u8],
    taken: u64,
) -> Result<(), AllocError>
    requires none { replies.old ≡ no_replies }
    requires some { 0 < length bytes.now }
    ensures { IfOk result (λ _. replies.new ≡ with_send (with_connection no_replies 0) (record { conn = 0; bytes = bytes.now; taken = taken })) }
{
    replies.opens(0)?;
    replies.sent(0, text(alloc, bytes)?, taken)
}

// Of a send of three bytes two are passed.
#[tactic(auto, unfolding(reply_ledger::specs::Ledger::connection_of, reply_ledger::specs::Ledger::changed, reply_ledger::specs::Ledger::times_of, reply_ledger::specs::Ledger::stamps_of, reply_ledger::specs::Ledger::stamped_to, reply_ledger::specs::Ledger::bytes_of, reply_ledger::specs::Ledger::stamped))]
fn a_part_is_passed(alloc: Global, replies: &mut Replies) -> Result<bool, AllocError>
    requires { replies.old ≡ no_replies }
{
    open_and_send(alloc, replies, b"aaa", 1)?;
    replies.passed(0, 2, 1)?;
    let waits = replies.next_piece(0) == None;
    let comes = replies.next_piece(1) == Some((0, b"a".as_slice()));
    replies.closes(0);
    let ends = replies.next_piece(1) == None;
    let rests = replies.rest_of(0) == Some(b"a".as_slice());
    Ok(waits && comes && ends && rests)
}

// A send with a rest is kept, and a passed one is trimmed: of three bytes so many are passed, and then this is the oldest send.
#[tactic(auto, unfolding(reply_ledger::specs::Ledger::connection_of, reply_ledger::specs::Ledger::changed, reply_ledger::specs::Ledger::times_of, reply_ledger::specs::Ledger::stamps_of, reply_ledger::specs::Ledger::stamped_to, reply_ledger::specs::Ledger::bytes_of, reply_ledger::specs::Ledger::stamped))]
fn a_send_is_trimmed(
    alloc: Global,
    replies: &mut Replies,
    count: usize,
    first: u64,
) -> Result<bool, AllocError>
    requires none { replies.old ≡ no_replies }
    requires few { count ≤ 3 }
{
    open_and_send(alloc, replies, b"aaa", 1)?;
    replies.passed(0, count, 1)?;
    replies.trim(1);
    Ok(replies.first_send() == first)
}

#[tactic(auto, unfolding(reply_ledger::specs::Ledger::connection_of, reply_ledger::specs::Ledger::changed, reply_ledger::specs::Ledger::times_of))]
fn a_trial_is_adopted(alloc: Global, replies: &mut Replies) -> Result<bool, AllocError>
    requires { replies.old ≡ no_replies }
{
    replies.opens(0)?;
    replies.begin_trial(0);
    let is_same = replies.trial_sent(0, text(alloc, b"a\n")?, 2)?;
    if !is_same {
        return Ok(false);
    }
    if !replies.covers() {
        return Ok(false);
    }
    replies.adopt();
    Ok(replies.next_piece(2) == Some((0, b"a\n".as_slice())))
}

#[tactic(auto, unfolding(reply_ledger::specs::Ledger::connection_of, reply_ledger::specs::Ledger::changed, reply_ledger::specs::Ledger::times_of, reply_ledger::specs::Ledger::stamps_of, reply_ledger::specs::Ledger::stamped_to, reply_ledger::specs::Ledger::bytes_of, reply_ledger::specs::Ledger::stamped))]
fn a_trial_contradicts(alloc: Global, replies: &mut Replies) -> Result<bool, AllocError>
    requires { replies.old ≡ no_replies }
{
    open_and_send(alloc, replies, b"a\n", 2)?;
    replies.passed(0, 2, 2)?;
    replies.begin_trial(0);
    let before = replies.covers_before(1);
    let not_before = replies.covers_before(2);
    let all = replies.covers();
    let is_same = replies.trial_sent(0, text(alloc, b"b\n")?, 2)?;
    replies.discard();
    replies.gone(0);
    let ends = replies.rest_of(0) == None;
    Ok(before && !not_before && !all && !is_same && ends)
}

#[tactic(auto, unfolding(reply_ledger::specs::Ledger::connection_of, reply_ledger::specs::Ledger::changed, reply_ledger::specs::Ledger::times_of, reply_ledger::specs::Ledger::stamps_of, reply_ledger::specs::Ledger::stamped_to, reply_ledger::specs::Ledger::bytes_of, reply_ledger::specs::Ledger::stamped))]
fn a_later_send_is_held(alloc: Global, replies: &mut Replies) -> Result<bool, AllocError>
    requires { replies.old ≡ no_replies }
{
    open_and_send(alloc, replies, b"a", 1)?;
    replies.sent(0, text(alloc, b"b")?, 2)?;
    replies.passed(0, 1, 3)?;
    let waits = replies.next_piece(1) == None;
    let comes = replies.next_piece(2) == Some((0, b"b".as_slice()));
    Ok(waits && comes)
}

#[tactic(auto, unfolding(reply_ledger::specs::Ledger::connection_of, reply_ledger::specs::Ledger::changed, reply_ledger::specs::Ledger::times_of, reply_ledger::specs::Ledger::stamps_of, reply_ledger::specs::Ledger::stamped_to, reply_ledger::specs::Ledger::bytes_of, reply_ledger::specs::Ledger::stamped))]
fn a_trial_contradicts_one_of_two(alloc: Global, replies: &mut Replies) -> Result<bool, AllocError>
    requires { replies.old ≡ no_replies }
{
    open_and_send(alloc, replies, b"a", 2)?;
    replies.opens(1)?;
    replies.passed(0, 1, 3)?;
    replies.begin_trial(0);
    let is_held = replies.trial_sent(1, text(alloc, b"b")?, 2)?;
    let is_same = replies.trial_sent(0, text(alloc, b"b")?, 2)?;
    Ok(is_held && !is_same)
}

// Whether a ledger does as the case of a number says.
fn is_case(alloc: Global, replies: &mut Replies, number: u32) -> Result<bool, AllocError>
    requires { replies.old ≡ no_replies }
{
    match number {
        0 => a_part_is_passed(alloc, replies),
        1 => a_send_is_trimmed(alloc, replies, 2, 0),
        2 => a_send_is_trimmed(alloc, replies, 3, 1),
        3 => a_trial_is_adopted(alloc, replies),
        4 => a_trial_contradicts(alloc, replies),
        5 => a_later_send_is_held(alloc, replies),
        _ => a_trial_contradicts_one_of_two(alloc, replies),
    }
}

// A ledger of its own.
fn is_so(alloc: Global, number: u32) -> Result<bool, AllocError> {
    let mut replies = Replies::make(alloc)?;
    is_case(alloc, &mut replies, number)
}

#[test]
fn replies_are_told_and_kept(rt: HostRuntime) -> Result<(), Fail> {
    for number in 0..7 {
        assert!(rt; is_so(rt.alloc(), number)?, "case {number}");
    }
    Ok(())
}
