// What is seen of messages and of items.
use crate::rows::events_of;
use item_log::{CONNECTIONS, ItemLog, ItemRefusal};
use links::LinkEvent;
use msg_frame::{FrameRefusal, Framer, Framing};
use std::alloc::Global;
use std::test::Fail;

// Adds the messages of a piece with a bar behind each, and a `!` where it is refused.
fn cut(framer: &mut Framer, piece: &[u8], found: &mut Vec<u8>) -> Result<(), Fail> {
    let count = framer.completes(piece);
    match framer.feed(piece) {
        Ok(messages) => {
            if count != Some(messages.len()) {
                return Err(Fail::new("another number of messages"));
            }
            for message in &messages {
                found.extend_from_slice(message.as_slice())?;
                found.push(b'|')?;
            }
        }
        Err(FrameRefusal::TooLong) => {
            if count.is_some() {
                return Err(Fail::new("another refusal"));
            }
            found.push(b'!')?;
        }
        Err(_) => return Err(Fail::new("another refusal")),
    }
    Ok(())
}

/// The messages of pieces that stand between bars.
pub fn messages_seen(alloc: Global, framing: Framing, pieces: &str) -> Result<String, Fail> {
    let mut found = Vec::new(alloc);
    let pieces = pieces.replace(alloc, ".", "\n")?;
    let mut framer = Framer::make(alloc, framing);
    for piece in pieces.as_str().split('|') {
        cut(&mut framer, piece.as_bytes(), &mut found)?;
    }
    if framer.framing() != framing {
        return Err(Fail::new("another framing"));
    }
    Ok(String::from_utf8_lossy(alloc, found.as_slice())?)
}

// Logs an event, if it is in order.
fn hear(log: &mut ItemLog, e: &LinkEvent) -> Result<Result<(), ItemRefusal>, Fail> {
    match e {
        LinkEvent::Opens(conn) => {
            if (*conn as usize) < CONNECTIONS && !log.is_open(*conn) {
                return Ok(log.event(e));
            }
        }
        LinkEvent::Piece(conn, _) | LinkEvent::Closes(conn) => {
            if log.is_open(*conn) {
                return Ok(log.event(e));
            }
        }
        LinkEvent::Settles => return Ok(log.event(e)),
        LinkEvent::Ends => {}
    }
    Err(Fail::new("out of order"))
}

// Logs events up to the first that is refused.
fn hear_all(log: &mut ItemLog, events: &[LinkEvent]) -> Result<Result<(), ItemRefusal>, Fail> {
    for e in events {
        if let Err(refusal) = hear(log, e)? {
            return Ok(Err(refusal));
        }
    }
    Ok(Ok(()))
}

// Adds the items that are kept: the digits of kind, connection and number in the connection, the bytes, and a bar behind each.
fn note_items(log: &ItemLog, found: &mut Vec<u8>) -> Result<(), Fail> {
    for number in log.first()..log.received() {
        let item = log.item(number);
        let within = log.number_in_connection(number);
        if item.kind > 9 || item.conn > 9 || within > 9 {
            return Err(Fail::new("another kind, connection or number"));
        }
        let digits = [
            b'0' + item.kind,
            b'0' + item.conn as u8,
            b'0' + within as u8,
        ];
        found.extend_from_slice(&digits)?;
        found.extend_from_slice(item.bytes.as_slice())?;
        found.push(b'|')?;
    }
    Ok(())
}

// Hears events that stand between bars. Where a number and a dash stand before them, the log is trimmed to it first.
fn play_log(alloc: Global, log: &mut ItemLog, line: &str) -> Result<Result<(), ItemRefusal>, Fail> {
    let (number, line) = line.split_once('-').unwrap_or(("0", line));
    let number = number.parse::<u64>()?;
    if number > log.received() {
        return Err(Fail::new("there aren't so many items"));
    }
    log.trim(number);
    let line = line.replace(alloc, ".", "\n")?;
    let events = events_of(alloc, line.as_str())?;
    hear_all(log, events.as_slice())
}

// The answer to the last events, the numbers of the first item that is kept and of the next one, and the items.
fn play_logs(alloc: Global, log: &mut ItemLog, lines: &str) -> Result<String, Fail> {
    let mut answer = Ok(());
    for line in lines.split('@') {
        answer = play_log(alloc, log, line)?;
    }
    let mut found = Vec::new(alloc);
    note_items(log, &mut found)?;
    let items = String::from_utf8_lossy(alloc, found.as_slice())?;
    let (first, next) = (log.first(), log.received());
    let (zero, one) = (log.is_open(0), log.is_open(1));
    Ok(format!(in alloc; "{answer:?} {first} {next} {zero} {one} {items}")?)
}

/// What is seen of a log that hears events, with so many items at most. An `@` has a number behind it, and a dash: the log is trimmed to that
/// one, and hears what follows. Seen are the answer, the numbers of the first item that is kept and of the next one, whether connections 0 and 1
/// are open, and the items.
pub fn items_seen(
    alloc: Global,
    framing: Framing,
    most: u64,
    events: &str,
) -> Result<String, Fail> {
    let mut log = ItemLog::make(alloc, framing, most)?;
    play_logs(alloc, &mut log, events)
}
