// Clients of a port of this machine, on the test's own thread.
use std::alloc::Global;
use std::io::{Read, Write};
use std::net::{Ipv4Addr, Net, OpenListener, OpenStream, Shutdown, TcpListener, TcpStream};
use std::test::Fail;

/// What a client does. Those that haven't left are numbered in the order in which they connected.
#[derive(Clone, Copy)]
pub enum ClientStep {
    /// One more connects, and sends this.
    Connects(&'static str),
    /// It sends no more.
    Shuts(usize),
    /// It takes what it is sent, up to the end.
    Takes(usize),
    Leaves(usize),
}

/// A port that was free a moment ago.
pub fn free_port<R: Net>(net: &R) -> Result<u16, Fail> {
    let listener = TcpListener::bind(net, (Ipv4Addr::LOCALHOST, 0u16))?;
    Ok(listener.local_addr()?.port())
}

/// Text of the first so many bytes.
pub fn text_of(bytes: &[u8], count: usize) -> Result<&str, Fail> {
    let (bytes, _) = bytes.split_at(count.min(bytes.len()));
    Ok(std::str::from_utf8(bytes).ok().ok_or("no text")?)
}

// A client of a port, which has sent this.
fn client<R: Net>(net: &R, port: u16, text: &str) -> Result<R::Stream, Fail> {
    let mut stream = TcpStream::connect(net, (Ipv4Addr::LOCALHOST, port))?;
    stream.write_all(text.as_bytes())?;
    Ok(stream)
}

// What a stream gives up to its end.
fn rest_of<S: Read>(alloc: Global, stream: &mut S) -> Result<String, Fail> {
    let mut text = String::new(alloc);
    let mut buf = [0u8; 8];
    'reads: for _ in 0..8 {
        let count = stream.read(&mut buf)?;
        if count == 0 {
            return Ok(text);
        }
        text.push_str(text_of(&buf, count)?)?;
    }
    Err(Fail::new("no end"))
}

// What a client takes up to the end.
fn taken<S: Read>(alloc: Global, clients: &mut [S], number: usize) -> Result<String, Fail> {
    let stream = clients.get_mut(number).ok_or("no client")?;
    let text = rest_of(alloc, stream)?;
    Ok(format!(in alloc; "{number} has {text} ")?)
}

// A client sends no more.
fn shut<S: OpenStream>(clients: &mut [S], number: usize) -> Result<(), Fail> {
    let stream = clients.get_mut(number).ok_or("no client")?;
    Ok(stream.shutdown(Shutdown::Write)?)
}

/// Does a step of one of the clients, and tells what it took.
pub fn do_step<R: Net>(
    net: &R,
    alloc: Global,
    port: u16,
    clients: &mut Vec<R::Stream>,
    step: ClientStep,
) -> Result<String, Fail> {
    match step {
        ClientStep::Connects(text) => clients.push(client(net, port, text)?)?,
        ClientStep::Shuts(number) => shut(clients, number)?,
        ClientStep::Takes(number) => return taken(alloc, clients, number),
        ClientStep::Leaves(number) => {
            if number < clients.len() {
                drop(clients.remove(number));
            }
        }
    }
    Ok(String::new(alloc))
}
