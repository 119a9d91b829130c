// A port in memory, and a link over it.
ghost use Rattle.std.specs.Prelude.{◌≡◌, ◌≤◌, []};
ghost use Rattle.port_link.specs.Standing.{IsJustBound};

use crate::answering::{add_words, answered};
use port_link::{PortLimits, PortLink};
use ports::{Awaited, MemoryPort, Port, PortCall, PortEntry, Ready};
use rx_base::Conn;
use std::alloc::Global;
use std::test::Fail;

// A port of three inputs, two bytes a call.
fn port_of(alloc: Global, script: &[Ready], fails: &[(PortCall, u64)]) -> Result<MemoryPort, Fail> {
    let mut inputs = Vec::new(alloc);
    for input in ["abc", "d", "e"].iter() {
        inputs.push(input.as_bytes().to_vec(alloc)?)?;
    }
    let script = script.to_vec(alloc)?;
    Ok(MemoryPort::make(alloc, inputs, script, fails.to_vec(alloc)?, 2))
}

// Adds what a wait was for, and what was ready.
fn add_wait(alloc: Global, text: &mut String, awaited: Awaited, ready: &Ready) -> Result<(), Fail> {
    if awaited.stop {
        text.push_str("stop or ")?;
    }
    let asked = if awaited.client { "any " } else { "open " };
    match ready {
        Ready::Accepts => {
            text.push_str(asked)?;
            Ok(text.push_str("client;")?)
        }
        Ready::Reads(conn) => add_words(alloc, text, (asked, *conn), ("", &[], ";")),
        Ready::Stops => {
            text.push_str(asked)?;
            Ok(text.push_str("stops;")?)
        }
    }
}

// Adds an entry in short.
fn add_entry(alloc: Global, text: &mut String, call: &PortEntry) -> Result<(), Fail> {
    let (word, conn, mark, bytes) = match call {
        PortEntry::Bound(port) => {
            return Ok(text.push_str(format!(in alloc; "bound {port};")?.as_str())?);
        }
        PortEntry::Waited { awaited, ready } => {
            return add_wait(alloc, text, *awaited, ready);
        }
        PortEntry::Failed(call) => {
            return Ok(text.push_str(format!(in alloc; "failed {call:?};")?.as_str())?);
        }
        PortEntry::Accepted(conn) => ("accepted ", *conn, "", [].as_slice()),
        PortEntry::Took { conn, bytes, .. } => ("took ", *conn, ":", bytes.as_slice()),
        PortEntry::Gave { conn, bytes, .. } => ("gave ", *conn, ":", bytes.as_slice()),
        PortEntry::Closed(conn) => ("closed ", *conn, "", [].as_slice()),
    };
    add_words(alloc, text, (word, conn), (mark, bytes, ";"))
}

fn shown(alloc: Global, calls: &[PortEntry]) -> Result<String, Fail> {
    let mut text = String::new(alloc);
    for call in calls {
        add_entry(alloc, &mut text, call)?;
    }
    Ok(text)
}

/// What a link over a port answers that was just bound.
pub fn serve<C: Port + Drop>(alloc: Global, port: C, limits: PortLimits) -> Result<String, Fail>
    requires some { 1 ≤ limits.at_once }
    requires few { limits.conns ≤ 4096 }
    requires none { C.connections port ≡ [] }
    requires bound { IsJustBound (C.told port) }
{
    let mut link = PortLink::make(alloc, port, limits);
    answered(alloc, &mut link)
}

// What a link over such a port answers, and the calls that it makes.
fn served(
    alloc: Global,
    script: &[Ready],
    fails: &[(PortCall, u64)],
    limits: PortLimits,
) -> Result<(String, String), Fail>
    requires some { 1 ≤ limits.at_once }
    requires few { limits.conns ≤ 4096 }
{
    let mut port = port_of(alloc, script, fails)?;
    match port.bind(80) {
        Ok(()) => {}
        Err(_) => return Err(Fail::new("not bound")),
    }
    let answers = serve(alloc, &mut port, limits)?;
    Ok((answers, shown(alloc, port.calls())?))
}

// What is ready, and which calls fail; how many connections there are, how many at once, and whether it may be stopped; what is answered,
// and which calls are made.
type Row = (
    &'static [Ready],
    &'static [(PortCall, u64)],
    Conn,
    u16,
    bool,
    &'static str,
    &'static str,
);

static ROWS: [Row; 14] = [
    // Two clients in turns.
    (
        &[
            Ready::Accepts,
            Ready::Accepts,
            Ready::Reads(1),
            Ready::Reads(0),
            Ready::Reads(1),
        ],
        &[],
        2,
        2,
        false,
        "o0 o1 p1:d all p0:ab all c1 p0:c all c0 end ",
        "bound 80;any client;accepted 0;any client;accepted 1;open 1;took 1:d;gave 1:tw;gave 1:o;open 0;took 0:ab;\
gave 0:on;gave 0:e;open 1;took 1:;closed 1;open 0;took 0:c;gave 0:on;gave 0:e;open 0;took 0:;closed 0;",
    ),
    // A give to one of them fails: it is closed next, and the other one is served on.
    (
        &[Ready::Accepts, Ready::Accepts, Ready::Reads(0)],
        &[(PortCall::Give, 2)],
        2,
        2,
        false,
        "o0 o1 p0:ab gone 2 c0 p1:d all c1 end ",
        "bound 80;any client;accepted 0;any client;accepted 1;open 0;took 0:ab;gave 0:on;failed Give(0);closed 0;\
open 1;took 1:d;gave 1:tw;gave 1:o;open 1;took 1:;closed 1;",
    ),
    // A take of one fails, which is its close.
    (
        &[Ready::Accepts, Ready::Accepts, Ready::Reads(0)],
        &[(PortCall::Take, 1)],
        2,
        2,
        false,
        "o0 o1 c0 p1:d all c1 end ",
        "bound 80;any client;accepted 0;any client;accepted 1;open 0;failed Take(0);closed 0;\
open 1;took 1:d;gave 1:tw;gave 1:o;open 1;took 1:;closed 1;",
    ),
    (
        &[Ready::Accepts, Ready::Reads(0)],
        &[(PortCall::Wait, 3)],
        2,
        2,
        false,
        "o0 p0:ab all ReadFault ",
        "bound 80;any client;accepted 0;any 0;took 0:ab;gave 0:on;gave 0:e;failed Wait;",
    ),
    (
        &[],
        &[(PortCall::Accept, 2)],
        2,
        2,
        false,
        "o0 ReadFault ",
        "bound 80;any client;accepted 0;any client;failed Accept;",
    ),
    // Past the last input an accept fails.
    (
        &[],
        &[],
        4,
        4,
        false,
        "o0 o1 o2 ReadFault ",
        "bound 80;any client;accepted 0;any client;accepted 1;any client;accepted 2;any client;failed Accept;",
    ),
    // One at a time: none is accepted while one is open, though a client comes first.
    (
        &[Ready::Accepts, Ready::Accepts],
        &[],
        2,
        1,
        false,
        "o0 p0:ab all p0:c all c0 o1 p1:d all c1 end ",
        "bound 80;any client;accepted 0;open 0;took 0:ab;gave 0:on;gave 0:e;open 0;took 0:c;gave 0:on;gave 0:e;open 0;took 0:;closed 0;\
any client;accepted 1;open 1;took 1:d;gave 1:tw;gave 1:o;open 1;took 1:;closed 1;",
    ),
    // Three, of which two are open at once.
    (
        &[
            Ready::Accepts,
            Ready::Accepts,
            Ready::Accepts,
            Ready::Reads(0),
        ],
        &[],
        3,
        2,
        false,
        "o0 o1 p0:ab all p0:c all c0 o2 p1:d all c1 p2:e all c2 end ",
        "bound 80;any client;accepted 0;any client;accepted 1;open 0;took 0:ab;gave 0:on;gave 0:e;open 0;took 0:c;gave 0:on;gave 0:e;\
open 0;took 0:;closed 0;any client;accepted 2;open 1;took 1:d;gave 1:tw;gave 1:o;open 1;took 1:;closed 1;\
open 2;took 2:e;gave 2:si;gave 2:x;open 2;took 2:;closed 2;",
    ),
    // A stop that may not be asked for isn't awaited.
    (
        &[Ready::Stops],
        &[],
        1,
        1,
        false,
        "o0 p0:ab all p0:c all c0 end ",
        "bound 80;any client;accepted 0;open 0;took 0:ab;gave 0:on;gave 0:e;open 0;took 0:c;gave 0:on;gave 0:e;open 0;took 0:;closed 0;",
    ),
    // A stop before the first client is the end.
    (
        &[Ready::Stops],
        &[],
        2,
        1,
        true,
        "end ",
        "bound 80;stop or any stops;",
    ),
    // A stop while two are open: no more are accepted, and both are served to their ends.
    (
        &[
            Ready::Accepts,
            Ready::Accepts,
            Ready::Stops,
            Ready::Reads(1),
        ],
        &[],
        3,
        3,
        true,
        "o0 o1 p1:d all p0:ab all p0:c all c0 c1 end ",
        "bound 80;stop or any client;accepted 0;stop or any client;accepted 1;stop or any stops;open 1;took 1:d;gave 1:tw;gave 1:o;\
open 0;took 0:ab;gave 0:on;gave 0:e;open 0;took 0:c;gave 0:on;gave 0:e;open 0;took 0:;closed 0;open 1;took 1:;closed 1;",
    ),
    // A stop where as many are open as may be at once.
    (
        &[Ready::Accepts, Ready::Stops],
        &[],
        2,
        1,
        true,
        "o0 p0:ab all p0:c all c0 end ",
        "bound 80;stop or any client;accepted 0;stop or open stops;open 0;took 0:ab;gave 0:on;gave 0:e;open 0;took 0:c;gave 0:on;gave 0:e;\
open 0;took 0:;closed 0;",
    ),
    // A client that is late behind a stop is a take that fails.
    (
        &[Ready::Accepts, Ready::Stops],
        &[(PortCall::Take, 1)],
        2,
        1,
        true,
        "o0 c0 end ",
        "bound 80;stop or any client;accepted 0;stop or open stops;open 0;failed Take(0);closed 0;",
    ),
    // A give that fails behind a stop: the client is closed, and that is the end.
    (
        &[Ready::Accepts, Ready::Stops],
        &[(PortCall::Give, 1)],
        2,
        1,
        true,
        "o0 p0:ab gone 0 c0 end ",
        "bound 80;stop or any client;accepted 0;stop or open stops;open 0;took 0:ab;failed Give(0);closed 0;",
    ),
];

// Whether a row is served as it says. One with numbers that no port takes isn't.
fn is_served(alloc: Global, row: &Row) -> Result<bool, Fail> {
    let (script, fails, conns, at_once, stops, answers, calls) = *row;
    if at_once < 1 || conns > 4096 {
        return Ok(false);
    }
    let limits = PortLimits {
        conns,
        at_once,
        stops,
    };
    let seen = served(alloc, script, fails, limits)?;
    Ok(seen.0.as_str() == answers && seen.1.as_str() == calls)
}

#[test]
fn a_port_is_served_at_the_same_time(rt: HostRuntime) -> Result<(), Fail> {
    for (i, row) in ROWS.iter().enumerate() {
        assert!(rt; is_served(rt.alloc(), row)?, "row {i}");
    }
    Ok(())
}
