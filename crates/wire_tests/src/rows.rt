// Rows: what is played to a framer, to a log of items, and to links, and behind ` > ` what is seen of it.
//
// An event is its kind (`o` opens, `p` sends a piece, `c` closes, `s` settles, `e` ends), its connection's digit and its bytes; `x` opens
// 4096. Bars part events and pieces, a dot is a line feed, and a dash is no event. A star is so many letters x as ` star=` says at the end.
use crate::framing_rows::{items_seen, messages_seen};
use crate::link_rows::{gifts_seen, list_seen, output_seen, trunk_seen};
use crate::text_rows::{frames_seen, lines_seen, turned_back};
use links::LinkEvent;
use msg_frame::Framing;
use rx_base::{Bytes, Conn};
use std::alloc::Global;
use std::process::Abort;
use std::test::Fail;

fn event_of(alloc: Global, text: &[u8]) -> Result<LinkEvent, Fail> {
    let (kind, conn, bytes) = match text {
        [b'x'] => return Ok(LinkEvent::Opens(4096)),
        [kind, digit @ b'0'..=b'9', bytes @ ..] => (*kind, Conn::from(*digit - b'0'), bytes),
        _ => return Err(Fail::new("it is no event")),
    };
    match kind {
        b'o' => Ok(LinkEvent::Opens(conn)),
        b'p' => Ok(LinkEvent::Piece(conn, Bytes::from_vec(bytes.to_vec(alloc)?))),
        b'c' => Ok(LinkEvent::Closes(conn)),
        b's' => Ok(LinkEvent::Settles),
        b'e' => Ok(LinkEvent::Ends),
        _ => Err(Fail::new("it is no event")),
    }
}

/// Events that stand between bars.
pub fn events_of(alloc: Global, line: &str) -> Result<Vec<LinkEvent>, Fail> {
    let mut events = Vec::new(alloc);
    if line == "-" {
        return Ok(events);
    }
    for text in line.split('|') {
        events.push(event_of(alloc, text.as_bytes())?)?;
    }
    Ok(events)
}

fn framing_of(word: &str) -> Framing {
    match word {
        "length" => Framing::Length,
        "whole" => Framing::Whole,
        _ => Framing::Line,
    }
}

// What is seen of a row, by its first word: pieces that are cut; events that are logged, with the most items there may be; events that a list
// plays, whose call of a number fails; two gives, of which the call of a number fails, and call 3 has so many bytes go out; what comes from a
// trunk, and a piece that goes out there, with so many bytes a call at most, and the call that fails; lines that become frames, and frames that
// become lines, with the calls of source and sink that fail; lines that become frames and lines again, and frames that become lines and frames.
fn seen_of(alloc: Global, given: &str) -> Result<String, Fail> {
    let mut words = given.split_whitespace();
    let kind = words.next().ok_or("no kind")?;
    let first = words.next().ok_or("no word")?;
    let second = words.next().ok_or("no second word")?;
    let third = words.next().unwrap_or("-");
    match kind {
        "cut" => messages_seen(alloc, framing_of(first), second),
        "log" => items_seen(alloc, framing_of(first), second.parse::<u64>()?, third),
        "list" => list_seen(alloc, first.parse::<u64>()?, second),
        "back" => turned_back(alloc, first, second),
        _ => seen_by_numbers(alloc, kind, (first, second), third),
    }
}

// Of those rows that have two numbers.
fn seen_by_numbers(
    alloc: Global,
    kind: &str,
    (first, second): (&str, &str),
    third: &str,
) -> Result<String, Fail> {
    let (most, count) = (first.parse::<usize>()?, second.parse::<usize>()?);
    let (one, two) = (first.parse::<u64>()?, second.parse::<u64>()?);
    match kind {
        "gives" => gifts_seen(alloc, one, count),
        "trunk" => trunk_seen(alloc, most, two, third),
        "frame" => frames_seen(alloc, one, two, third),
        "unframe" => lines_seen(alloc, one, two, third),
        "out" => output_seen(alloc, most, two),
        _ => Err(Fail::new("no such kind")),
    }
}

// A row with so many letters x for each star as it says.
fn starred(alloc: Global, row: &str) -> Result<String, Fail> {
    let (row, count) = row.split_once(" star=").unwrap_or((row, "1"));
    let long = "x".repeat(alloc, count.parse::<usize>()?)?;
    Ok(row.replace(alloc, "*", long.as_str())?)
}

fn play_row(rt: &impl Abort, alloc: Global, row: &str) -> Result<(), Fail> {
    let row = starred(alloc, row)?;
    let (given, wanted) = row.as_str().split_once(" > ").ok_or("no row")?;
    let seen = seen_of(alloc, given)?.as_str().replace(alloc, "\n", ".")?;
    assert!(rt; seen.as_str().trim() == wanted, "{given} > {seen}");
    Ok(())
}

/// Plays each line of a text, and compares. Blank lines and those that begin with `#` are passed over.
pub fn play_rows(rt: &impl Abort, alloc: Global, rows: &str) -> Result<(), Fail> {
    for row in rows.lines() {
        let row = row.trim();
        if !row.is_empty() && !row.starts_with('#') {
            play_row(rt, alloc, row)?;
        }
    }
    Ok(())
}
