// A line of events, and the line of a journal.
ghost use Rattle.std.specs.Prelude.{IfOk};
ghost use Rattle.links.specs.MemoryLinks.{seen_in};
ghost use Rattle.links.specs.Seen.{IsFreshLink};

use links::{Entry, LinkEvent, MemoryLink};
use rx_base::{Bytes, Conn};
use std::alloc::Global;
use std::test::Fail;

// An event is its kind (`o` opens, `p` brings a piece, `c` closes, `s` settles), its connection's digit and its bytes.
fn event_of(alloc: Global, text: &[u8]) -> Result<LinkEvent, Fail> {
    let [kind, conn @ b'0'..=b'9', bytes @ ..] = text else {
        return Err(Fail::new("it is no event"));
    };
    let conn = Conn::from(*conn - b'0');
    match kind {
        b'o' => Ok(LinkEvent::Opens(conn)),
        b'p' => Ok(LinkEvent::Piece(conn, Bytes::from_vec(bytes.to_vec(alloc)?))),
        b'c' => Ok(LinkEvent::Closes(conn)),
        b's' => Ok(LinkEvent::Settles),
        _ => Err(Fail::new("it is no event")),
    }
}

// Events that stand between bars.
fn events_of(alloc: Global, line: &str) -> Result<Vec<LinkEvent>, Fail> {
    let mut events = Vec::new(alloc);
    if line.is_empty() {
        return Ok(events);
    }
    for text in line.split('|') {
        events.push(event_of(alloc, text.as_bytes())?)?;
    }
    Ok(events)
}

/// A link that plays the events of a line. They stand between bars: a letter (`o` opens, `p` brings a piece, `c` closes, `s` settles), a
/// connection's digit and bytes. The calls with the numbers `fails` fail, and each give of `gones` finds its connection gone after so
/// many bytes.
pub fn link_of(
    alloc: Global,
    line: &str,
    fails: &[u64],
    gones: &[(u64, usize)],
) -> Result<MemoryLink, Fail>
    ensures { IfOk result (λ link. IsFreshLink (seen_in link)) }
{
    let events = events_of(alloc, line)?;
    let fails = fails.to_vec(alloc)?;
    let gones = gones.to_vec(alloc)?;
    Ok(MemoryLink::make(alloc, events, fails, gones))
}

// Writes a letter, a connection's digit, bytes and a bar.
fn write_entry(line: &mut Vec<u8>, letter: u8, conn: Conn, bytes: &[u8]) -> Result<(), Fail> {
    if conn > 9 {
        return Err(Fail::new("another connection"));
    }
    line.push(letter)?;
    line.push(b'0' + conn as u8)?;
    line.extend_from_slice(bytes)?;
    line.push(b'|')?;
    Ok(())
}

/// A journal in the letters of events, with `g` for a piece that was given, `G` where its connection was gone, and `e0` for the end.
/// Behind each entry stands a bar.
pub fn line_of(alloc: Global, journal: &[Entry]) -> Result<Vec<u8>, Fail> {
    let mut line = Vec::new(alloc);
    for entry in journal {
        let (letter, conn, bytes) = match entry {
            Entry::Took(LinkEvent::Opens(conn)) => (b'o', *conn, [].as_slice()),
            Entry::Took(LinkEvent::Piece(conn, bytes)) => (b'p', *conn, bytes.as_slice()),
            Entry::Took(LinkEvent::Closes(conn)) => (b'c', *conn, [].as_slice()),
            Entry::Took(LinkEvent::Settles) => (b's', 0, [].as_slice()),
            Entry::Took(LinkEvent::Ends) => (b'e', 0, [].as_slice()),
            Entry::Gave { conn, bytes, gone } => {
                (if *gone { b'G' } else { b'g' }, *conn, bytes.as_slice())
            }
        };
        write_entry(&mut line, letter, conn, bytes)?;
    }
    Ok(line)
}
