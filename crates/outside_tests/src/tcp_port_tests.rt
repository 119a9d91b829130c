// A port over the system's TCP, and its clients on the same thread.
ghost use Rattle.std.specs.Prelude.{◌≡◌, ◌≤◌, []};
ghost use Rattle.ports.specs.Connections.{is_open};

use crate::clients::{ClientStep, do_step, free_port, text_of};
use crate::port_tests::serve;
use port_link::PortLimits;
use ports::{Awaited, Port, Ready};
use rx_base::{Conn, IoFault};
use std::alloc::Global;
use std::net::Net;
use std::test::Fail;
use tcp_edge::{StopInput, TcpPortEdge};

// A port that keeps which of its connections are open. A call that may not be made answers `Memory`.
#[derive(Drop)]
struct Careful<C: Port + Drop> {
    port: C,
    opened: Vec<bool>,
    ghost same: { C.connections port ≡ opened.items },
}

fn is_open(conn: Conn, opened: &[bool]) -> bool
    ensures { result ≡ is_open conn opened.now }
{
    match opened.get(conn as usize) {
        Some(is) => *is,
        None => false,
    }
}

impl<C: Port + Drop> Careful<C> {
    fn make(alloc: Global, port: C) -> Careful<C>
        requires { C.connections port ≡ [] }
    {
        Careful {
            port,
            opened: Vec::new(alloc),
        }
    }

    fn bind(&mut self, port: u16) -> Result<(), IoFault> {
        match self.port.bind(port) {
            Ok(()) => {
                self.opened.clear();
                Ok(())
            }
            Err(fault) => Err(fault),
        }
    }

    fn wait(&mut self) -> Result<Ready, IoFault> {
        self.port.wait(Awaited {
            client: true,
            stop: false,
        })
    }

    fn accept(&mut self) -> Result<(), IoFault> {
        if self.opened.len() >= 2 {
            return Err(IoFault::Memory);
        }
        if self.opened.reserve(1).is_err() {
            return Err(IoFault::Memory);
        }
        match self.port.accept() {
            Ok(()) => {
                self.opened.push_reserved(true);
                Ok(())
            }
            Err(fault) => Err(fault),
        }
    }

    fn take(&mut self, conn: Conn, buf: &mut [u8; 2]) -> Result<usize, IoFault> {
        if !is_open(conn, &self.opened) {
            return Err(IoFault::Memory);
        }
        self.port.take(conn, buf)
    }

    fn give(&mut self, conn: Conn, bytes: &[u8]) -> Result<usize, IoFault> {
        if bytes.is_empty() || !is_open(conn, &self.opened) {
            return Err(IoFault::Memory);
        }
        self.port.give(conn, bytes)
    }

    fn close(&mut self, conn: Conn) {
        if is_open(conn, &self.opened) {
            self.port.close(conn);
            self.opened[conn as usize] = false;
        }
    }
}

// What a client does, or a call on the port.
#[derive(Clone, Copy)]
enum Step {
    Client(ClientStep),
    Bind,
    Accept,
    /// What a wait says is ready is done, so often.
    Events(u32),
    Give(Conn, &'static str),
    /// A give of 16 MiB.
    Flood(Conn),
    Close(Conn),
}

// What a take answered, in short.
fn taken(
    alloc: Global,
    conn: Conn,
    buf: &[u8],
    answer: Result<usize, IoFault>,
) -> Result<String, Fail> {
    Ok(match answer {
        Ok(0) => format!(in alloc; "{conn} ends ")?,
        Ok(count) => format!(in alloc; "{conn}:{} ", text_of(buf, count)?)?,
        Err(fault) => format!(in alloc; "{conn} {fault:?} ")?,
    })
}

// Does what a wait says is ready.
fn event<C: Port + Drop>(alloc: Global, port: &mut Careful<C>) -> Result<String, Fail> {
    match port.wait() {
        Ok(Ready::Accepts) => {
            let answer = port.accept();
            Ok(format!(in alloc; "accept {answer:?} ")?)
        }
        Ok(Ready::Reads(conn)) => {
            let mut buf = [0u8; 2];
            let answer = port.take(conn, &mut buf);
            taken(alloc, conn, &buf, answer)
        }
        Ok(Ready::Stops) => Ok(String::from_str(alloc, "stops ")?),
        Err(fault) => Ok(format!(in alloc; "wait {fault:?} ")?),
    }
}

// So many of them.
fn events<C: Port + Drop>(
    alloc: Global,
    port: &mut Careful<C>,
    count: u32,
) -> Result<String, Fail> {
    let mut text = String::new(alloc);
    'events: for _ in 0..count {
        text.push_str(event(alloc, port)?.as_str())?;
    }
    Ok(text)
}

// Whether of many bytes a part was given.
fn flood<C: Port + Drop>(alloc: Global, port: &mut Careful<C>, conn: Conn) -> Result<String, Fail> {
    let block = vec![in alloc; 0u8; 1 << 24]?;
    Ok(match port.give(conn, &block) {
        Ok(count) => format!(in alloc; "part {} ", count < block.len())?,
        Err(fault) => format!(in alloc; "{fault:?} ")?,
    })
}

// Does a step, and tells what came of it.
fn play<R: Net, C: Port + Drop>(
    net: &R,
    alloc: Global,
    number: u16,
    clients: &mut Vec<R::Stream>,
    port: &mut Careful<C>,
    step: Step,
) -> Result<String, Fail> {
    let (word, answer) = match step {
        Step::Client(step) => return do_step(net, alloc, number, clients, step),
        Step::Bind => ("bind", port.bind(number)),
        Step::Accept => ("accept", port.accept()),
        Step::Events(count) => return events(alloc, port, count),
        Step::Give(conn, text) => {
            let answer = port.give(conn, text.as_bytes());
            return Ok(format!(in alloc; "give {answer:?} ")?);
        }
        Step::Flood(conn) => return flood(alloc, port, conn),
        Step::Close(conn) => {
            port.close(conn);
            return Ok(String::new(alloc));
        }
    };
    Ok(format!(in alloc; "{word} {answer:?} ")?)
}

// Plays steps one after the other.
fn played<R: Net, C: Port + Drop>(
    net: &R,
    alloc: Global,
    port: C,
    steps: &[Step],
) -> Result<String, Fail>
    requires { C.connections port ≡ [] }
{
    let mut port = Careful::make(alloc, port);
    let number = free_port(net)?;
    let mut clients = Vec::new(alloc);
    let mut text = String::new(alloc);
    for step in steps {
        let told = play(net, alloc, number, &mut clients, &mut port, *step)?;
        text.push_str(told.as_str())?;
    }
    Ok(text)
}

// Nobody asks for a stop.
fn no_stop<R: Net>(_net: &R) -> Option<StopInput<R::Stream>> {
    None
}

// For how many seconds it waits, what is done, and what comes of it.
type Row = (u64, &'static [Step], &'static str);

static ROWS: [Row; 4] = [
    // It needs a port, and one that is free.
    (
        0,
        &[Step::Events(1), Step::Accept, Step::Bind, Step::Bind],
        "wait Failed accept Err(Failed) bind Ok(()) bind Err(Failed) ",
    ),
    // Clients take turns. One that ends its sending is read to the end, and gets its reply, and then the close.
    (
        0,
        &[
            Step::Bind,
            Step::Client(ClientStep::Connects("abcd")),
            Step::Client(ClientStep::Connects("e")),
            Step::Client(ClientStep::Shuts(0)),
            Step::Events(6),
            Step::Give(0, "xy"),
            Step::Close(0),
            Step::Client(ClientStep::Takes(0)),
        ],
        "bind Ok(()) accept Ok(()) accept Ok(()) 0:ab 1:e 0:cd 0 ends give Ok(2) 0 has xy ",
    ),
    // One that leaves with a reply unread resets its connection. One that is gone takes a give, and then no more.
    (
        0,
        &[
            Step::Bind,
            Step::Client(ClientStep::Connects("a")),
            Step::Client(ClientStep::Connects("b")),
            Step::Events(4),
            Step::Give(0, "x"),
            Step::Client(ClientStep::Leaves(0)),
            Step::Events(1),
            Step::Close(0),
            Step::Client(ClientStep::Leaves(0)),
            Step::Give(1, "x"),
            Step::Give(1, "x"),
        ],
        "bind Ok(()) accept Ok(()) accept Ok(()) 0:a 1:b give Ok(1) 0 Failed give Ok(1) give Err(Failed) ",
    ),
    // Clients that keep still are waited for a second. To one that reads nothing a give takes a part, and is the last one.
    (
        1,
        &[
            Step::Bind,
            Step::Client(ClientStep::Connects("")),
            Step::Client(ClientStep::Connects("b")),
            Step::Events(4),
            Step::Close(0),
            Step::Flood(1),
            Step::Flood(1),
        ],
        "bind Ok(()) accept Ok(()) accept Ok(()) 1:b 0 Failed part true Failed ",
    ),
];

#[test]
fn a_port_serves_on_loopback(rt: HostRuntime) -> Result<(), Fail> {
    let alloc = rt.alloc();
    for (i, row) in ROWS.iter().enumerate() {
        let (patience, steps, wanted) = *row;
        let port = TcpPortEdge::make(&rt, alloc, patience, no_stop(&rt));
        let seen = played(&rt, alloc, port, steps)?;
        assert!(rt; seen.as_str() == wanted, "row {i}: {seen}");
    }
    Ok(())
}

// What a link answers over a port of two clients, of which the first sends, and ends, and the second keeps still.
fn served_in_turn<R: Net, C: Port + Drop>(
    net: &R,
    alloc: Global,
    port: C,
    at_once: u16,
) -> Result<String, Fail>
    requires some { 1 ≤ at_once }
    requires none { C.connections port ≡ [] }
{
    let mut port = port;
    let number = free_port(net)?;
    match port.bind(number) {
        Ok(()) => {}
        Err(_) => return Err(Fail::new("not bound")),
    }
    let mut clients = Vec::new(alloc);
    for step in [
        ClientStep::Connects("ab"),
        ClientStep::Shuts(0),
        ClientStep::Connects(""),
    ] {
        let _ = do_step(net, alloc, number, &mut clients, step)?;
    }
    let limits = PortLimits {
        conns: 2,
        at_once,
        stops: false,
    };
    serve(alloc, port, limits)
}

// One client after another is waited for without a look at the others, two at the same time with one. The silent one is let go by its patience.
#[test]
fn a_link_serves_on_loopback(rt: HostRuntime) -> Result<(), Fail> {
    let alloc = rt.alloc();
    let seen = served_in_turn(
        &rt,
        alloc,
        TcpPortEdge::make(&rt, alloc, 1, no_stop(&rt)),
        1,
    )?;
    assert!(rt; seen.as_str() == "o0 p0:ab all c0 o1 c1 end ");
    let seen = served_in_turn(
        &rt,
        alloc,
        TcpPortEdge::make(&rt, alloc, 1, no_stop(&rt)),
        2,
    )?;
    assert!(rt; seen.as_str() == "o0 o1 p0:ab all c0 c1 end ");
    Ok(())
}
