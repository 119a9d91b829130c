// What a command shows at its end, as texts.
use ports::{FailedCall, PortEntry, Ready};
use rx_base::Conn;
use rx_serve::End;
use std::alloc::{AllocError, Global};

/// All fields of an end but what differs.
pub fn shown(alloc: Global, end: &End) -> Result<String, AllocError> {
    format!(in alloc;
        "{:?} {} {} {:?} {} {}",
        end.answer,
        end.status,
        end.recorded,
        end.tail.as_slice(),
        end.steps,
        end.taken
    )
}

// The kind of a call that failed.
fn kind_of(call: FailedCall) -> &'static str {
    match call {
        FailedCall::Bind => "Bind",
        FailedCall::Wait => "Wait",
        FailedCall::Accept => "Accept",
        FailedCall::Take(_) => "Take",
        FailedCall::Give(_) => "Give",
    }
}

// A call on a port behind a blank, without its connection; of a wait nothing.
fn call_shown(alloc: Global, call: &PortEntry) -> Result<String, AllocError> {
    match call {
        PortEntry::Bound(port) => format!(in alloc; " bound {port}"),
        PortEntry::Waited { .. } => Ok(String::new(alloc)),
        PortEntry::Accepted(_) => String::from_str(alloc, " accepted"),
        PortEntry::Took { bytes, room, .. } => {
            format!(in alloc; " took {} of {room}", bytes.as_slice().len())
        }
        PortEntry::Gave { bytes, offered, .. } => {
            format!(in alloc; " gave {} of {offered}", bytes.as_slice().len())
        }
        PortEntry::Closed(_) => String::from_str(alloc, " closed"),
        PortEntry::Failed(call) => format!(in alloc; " failed {}", kind_of(*call)),
    }
}

// The calls on a port but its waits.
pub(crate) fn calls_shown(alloc: Global, calls: &[PortEntry]) -> Result<String, AllocError> {
    let mut text = String::new(alloc);
    for call in calls {
        let shown = call_shown(alloc, call)?;
        text.push_str(shown.as_str())?;
    }
    Ok(text)
}

// Adds what a call gave to its client, or a `|` where it ended it.
fn push_reply(replies: &mut Vec<u8>, call: &PortEntry) -> Result<(), AllocError> {
    match call {
        PortEntry::Gave { bytes, .. } => replies.extend_from_slice(bytes.as_slice())?,
        PortEntry::Closed(_) => replies.push(b'|')?,
        _ => {}
    }
    Ok(())
}

// What clients were given one after another, a `|` where one was closed.
pub(crate) fn replies_in(alloc: Global, calls: &[PortEntry]) -> Result<Vec<u8>, AllocError> {
    let mut replies = Vec::new(alloc);
    for call in calls {
        push_reply(&mut replies, call)?;
    }
    Ok(replies)
}

// What a wait answered.
fn ready_shown(alloc: Global, ready: Ready) -> Result<String, AllocError> {
    match ready {
        Ready::Accepts => String::from_str(alloc, "client"),
        Ready::Reads(conn) => format!(in alloc; "{conn}"),
        Ready::Stops => String::from_str(alloc, "stop"),
    }
}

// A call on a port, behind a blank.
fn port_call_shown(alloc: Global, call: &PortEntry) -> Result<String, AllocError> {
    match call {
        PortEntry::Bound(port) => format!(in alloc; " bound {port}"),
        PortEntry::Waited { awaited, ready } => {
            let asked = if awaited.client { "any" } else { "open" };
            let or = if awaited.stop { "-or-stop" } else { "" };
            let ready = ready_shown(alloc, *ready)?;
            format!(in alloc; " {asked}{or} {ready}")
        }
        PortEntry::Accepted(conn) => format!(in alloc; " accepted {conn}"),
        PortEntry::Took { conn, bytes, room } => {
            format!(in alloc; " took {conn} {} of {room}", bytes.as_slice().len())
        }
        PortEntry::Gave {
            conn,
            bytes,
            offered,
        } => { format!(in alloc; " gave {conn} {} of {offered}", bytes.as_slice().len()) }
        PortEntry::Closed(conn) => format!(in alloc; " closed {conn}"),
        PortEntry::Failed(call) => format!(in alloc; " failed {call:?}"),
    }
}

// The calls on a port.
pub(crate) fn port_calls_shown(alloc: Global, calls: &[PortEntry]) -> Result<String, AllocError> {
    let mut text = String::new(alloc);
    for call in calls {
        let shown = port_call_shown(alloc, call)?;
        text.push_str(shown.as_str())?;
    }
    Ok(text)
}

// Adds what a call gave to a connection.
fn push_given(given: &mut Vec<u8>, call: &PortEntry, of: Conn) -> Result<(), AllocError> {
    if let PortEntry::Gave { conn, bytes, .. } = call {
        if *conn == of {
            given.extend_from_slice(bytes.as_slice())?;
        }
    }
    Ok(())
}

// Adds what a connection was given, and a `|`.
fn push_connection(given: &mut Vec<u8>, calls: &[PortEntry], of: Conn) -> Result<(), AllocError> {
    for call in calls {
        push_given(given, call, of)?;
    }
    given.push(b'|')?;
    Ok(())
}

// What each connection of a port was given, a `|` behind each.
pub(crate) fn given_in(alloc: Global, calls: &[PortEntry]) -> Result<Vec<u8>, AllocError> {
    let mut given = Vec::new(alloc);
    for call in calls {
        if let PortEntry::Accepted(conn) = call {
            push_connection(&mut given, calls, *conn)?;
        }
    }
    Ok(given)
}
