// A server in small: each piece that a link answers gets a reply.
ghost use Rattle.std.specs.Prelude.{◌≡◌, ◌<◌, ◌^◌, length, IfOk, false, not, true};

use links::{Given, Link, LinkEvent, LinkFault};
use rx_base::Conn;
use std::alloc::Global;
use std::test::Fail;

/// Adds a word, the number of a connection, and what is said of it, if anything, between these marks.
pub fn add_words(
    alloc: Global,
    text: &mut String,
    (word, conn): (&str, Conn),
    (mark, bytes, end): (&str, &[u8], &str),
) -> Result<(), Fail> {
    let said = std::str::from_utf8(bytes).ok().ok_or("no text")?;
    text.push_str(format!(in alloc; "{word}{conn}{mark}{said}{end}")?.as_str())?;
    Ok(())
}

// Adds an answer of `next` in short.
fn add_event(
    alloc: Global,
    answers: &mut String,
    answer: &Result<LinkEvent, LinkFault>,
) -> Result<(), Fail> {
    match answer {
        Ok(LinkEvent::Opens(conn)) => add_words(alloc, answers, ("o", *conn), ("", &[], " ")),
        Ok(LinkEvent::Piece(conn, bytes)) => {
            add_words(alloc, answers, ("p", *conn), (":", bytes.as_slice(), " "))
        }
        Ok(LinkEvent::Closes(conn)) => add_words(alloc, answers, ("c", *conn), ("", &[], " ")),
        Ok(LinkEvent::Settles) => Ok(answers.push_str("settles ")?),
        Ok(LinkEvent::Ends) => Ok(answers.push_str("end ")?),
        Err(fault) => add_fault(alloc, answers, *fault),
    }
}

fn add_fault(alloc: Global, answers: &mut String, fault: LinkFault) -> Result<(), Fail> {
    Ok(answers.push_str(format!(in alloc; "{fault:?} ")?.as_str())?)
}

// Adds an answer of `give` in short.
fn add_given(
    alloc: Global,
    answers: &mut String,
    answer: &Result<Given, LinkFault>,
) -> Result<(), Fail> {
    match answer {
        Ok(Given::All) => Ok(answers.push_str("all ")?),
        Ok(Given::Gone(count)) => {
            Ok(answers.push_str(format!(in alloc; "gone {count} ")?.as_str())?)
        }
        Err(fault) => add_fault(alloc, answers, *fault),
    }
}

// What a connection is answered.
fn reply(conn: Conn) -> &'static [u8]
    ensures some { 0 < length result.now }
    ensures few { length result.now < 2 ^ 16 }
{
    match conn {
        0 => b"one",
        1 => b"two",
        _ => b"six",
    }
}

// Gives a connection its reply, and tells whether that failed.
fn give_reply<L: Link>(
    alloc: Global,
    link: &mut L,
    conn: Conn,
    answers: &mut String,
) -> Result<bool, Fail>
    requires takes { (L.seen link.old).takes ≡ true }
    requires gives { (L.seen link.old).gives ≡ true }
    requires connected { (L.seen link.old).gives_to conn ≡ true }
    ensures takes { (L.seen link.new).takes ≡ true }
    ensures gives { IfOk result (λ failed. (L.seen link.new).gives ≡ not failed) }
{
    let given = link.give(conn, reply(conn));
    let failed = given.is_err();
    add_given(alloc, answers, &given)?;
    Ok(failed)
}

// Answers the next event, a piece with a reply, and tells whether it was the last.
fn answer_next<L: Link>(alloc: Global, link: &mut L, answers: &mut String) -> Result<bool, Fail>
    requires takes { (L.seen link.old).takes ≡ true }
    requires gives { (L.seen link.old).gives ≡ true }
    ensures on { IfOk result (λ last. last ≡ false → ((L.seen link.new).takes ≡ true) × ((L.seen link.new).gives ≡ true)) }
{
    let event = link.next();
    add_event(alloc, answers, &event)?;
    match event {
        Ok(LinkEvent::Piece(conn, _)) => give_reply(alloc, link, conn, answers),
        Ok(LinkEvent::Ends) => Ok(true),
        Ok(_) => Ok(false),
        Err(_) => Ok(true),
    }
}

/// Answers each piece with a reply, until the link ends or fails: the answers of both kinds of calls.
pub fn answered<L: Link>(alloc: Global, link: &mut L) -> Result<String, Fail>
    requires takes { (L.seen link.old).takes ≡ true }
    requires gives { (L.seen link.old).gives ≡ true }
{
    let mut answers = String::new(alloc);
    'turns: for _ in 0..40 {
        if answer_next(alloc, link, &mut answers)? {
            return Ok(answers);
        }
    }
    Err(Fail::new("no end"))
}
