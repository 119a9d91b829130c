// A port in memory that never fails.
ghost use Rattle.std.specs.Prelude.{◌≡◌, ◌+◌, ◌^◌, ◌<◌, ◌≤◌, ◌++◌, ℕ, Bool, true, false, [], length, min, position, Some, IfOk, vec_len, vec_capacity};
ghost use Rattle.ports.specs.Connections.{accepted, is_open, open_count, without, IsBoundAfter, IsConnectedAfter, IsReady};
ghost use Rattle.ports.specs.Calls.{PortBinds, PortWaits, PortAccepts, PortTakes, PortGives, Logs, closed, fault_entry};
ghost use Rattle.ports.specs.Streams.{TakesAt, stream_at};
ghost use Rattle.ports.specs.Scripts.{no_input, first_open, first_ready, is_ready, next_ready, script_rest, WaitsNext};
ghost use Rattle.rx_base.specs.Faults.{HasCause};
ghost use Rattle.rx_base.specs.Taking.{IsPart};
ghost use Rattle.rx_base.specs.Planned.{GivesBy};
ghost use Rattle.rx_base.specs.Outside.{piece_len};
ghost use Rattle.std.specs.Vec.Iter.{into_iter_items, into_iter_len};

use crate::input::Input;
use crate::{Awaited, FailedCall, Port, PortEntry, Ready};
use rx_base::{Bytes, Conn, IoFault};
use std::alloc::Global;
use std::vec::IntoIter;

/// Connections whose inputs are prepared, and a script of what is ready. It never answers `Failed`: past the last input an
/// accepted connection has an empty one.
#[derive(Drop)]
pub struct TamePort {
    alloc: Global,
    inputs: IntoIter<Vec<u8>>,
    script: IntoIter<Ready>,
    begun: Vec<Input>,
    opened: Vec<bool>,
    count: usize,
    most: usize,
    calls: Vec<PortEntry>,
    ghost goes_on: { 1 ≤ most },
    ghost counted: { into_iter_len inputs ≡ length (into_iter_items inputs) },
    ghost begun_each: { length begun.items ≡ length opened.items },
    ghost few: { length opened.items ≤ 2 ^ 16 },
    ghost open_counted: { open_count opened.items ≡ count },
    ghost open_few: { count ≤ length opened.items },
    ghost room_to_close: { vec_len calls + count ≤ vec_capacity calls },
}

// Whether a connection is open.
fn is_open(conn: Conn, opened: &[bool]) -> bool
    ensures { result ≡ is_open conn opened.now }
{
    match opened.get(conn as usize) {
        Some(is) => *is,
        None => false,
    }
}

// Whether this can be answered now.
fn is_ready(awaited: Awaited, opened: &[bool], ready: Ready) -> bool
    ensures { result ≡ is_ready awaited opened.now ready }
{
    match ready {
        Ready::Accepts => awaited.client,
        Ready::Reads(conn) => is_open(conn, opened),
        Ready::Stops => awaited.stop,
    }
}

// The place of the open connection with the lowest number, if one is open.
fn first_place(opened: &[bool]) -> Option<usize>
    ensures { result ≡ position (λ (is : Bool). is) opened.now }
{
    opened.iter().position(|is| *is)
}

// The open connection with the lowest number.
fn first_open(opened: &[bool]) -> Conn
    requires few { length opened.now ≤ 2 ^ 16 }
    ensures { result ≡ first_open opened.now }
{
    match first_place(opened) {
        Some(conn) => conn as Conn,
        None => 0,
    }
}

// What is answered where no script says it.
fn first_ready(awaited: Awaited, opened: &[bool]) -> Ready
    requires few { length opened.now ≤ 2 ^ 16 }
    ensures { result ≡ first_ready awaited opened.now }
{
    if awaited.client {
        return Ready::Accepts;
    }
    Ready::Reads(first_open(opened))
}

impl TamePort {
    ghost use Rattle.ports.specs.TamePorts.{tame_calls, tame_connections, tame_inputs, tame_script, tame_streams, port_most, contents_of_all, KeepsInputs};

    /// The connections' inputs, in the order in which they are accepted, and what the waits answer one after another. A call takes
    /// or gives at most `most` bytes. Where a line of the script can't be now, or past its last one, a client is accepted if one
    /// may be, and else the open connection with the lowest number is read of.
    pub fn make(alloc: Global, inputs: Vec<Vec<u8>>, script: Vec<Ready>, most: usize) -> TamePort
        requires { 1 ≤ most }
        ensures calls { tame_calls result ≡ [] }
        ensures connections { tame_connections result ≡ [] }
        ensures streams { tame_streams result ≡ [] }
        ensures inputs { tame_inputs result ≡ contents_of_all inputs.items }
        ensures script { tame_script result ≡ script.items }
        ensures most { port_most result ≡ most }
    {
        TamePort {
            alloc,
            inputs: inputs.into_iter(),
            script: script.into_iter(),
            begun: Vec::new(alloc),
            opened: Vec::new(alloc),
            count: 0,
            most,
            calls: Vec::new(alloc),
        }
    }

    /// All calls with their answers, in order.
    pub fn calls(&self) -> &[PortEntry]
        ensures { result.now ≡ tame_calls self.now }
    {
        &self.calls
    }

    // Whether each input was begun.
    pub(crate) fn has_no_input(&self) -> bool
        ensures { result ≡ no_input (tame_inputs self.now) }
    {
        self.inputs.len() == 0
    }

    // Notes that a call failed, unless memory runs out.
    pub(crate) fn fail(&mut self, call: FailedCall) -> IoFault
        ensures call { tame_calls self.new ≡ tame_calls self.old ++ fault_entry call result }
        ensures connections { tame_connections self.new ≡ tame_connections self.old }
        ensures script { tame_script self.new ≡ tame_script self.old }
        ensures inputs { KeepsInputs self.old self.new }
    {
        match self.calls.reserve(self.count + 1) {
            Ok(()) => {}
            Err(_) => return IoFault::Memory,
        }
        self.calls.push_reserved(PortEntry::Failed(call));
        IoFault::Failed
    }

    // What a wait answers; the script goes on by a line.
    fn next_ready(&mut self, awaited: Awaited) -> Ready
        ensures ready { result ≡ next_ready awaited (tame_connections self.old) (tame_script self.old) }
        ensures script { tame_script self.new ≡ script_rest (tame_script self.old) }
        ensures calls { self.new.calls ≡ self.old.calls }
        ensures count { self.new.count ≡ self.old.count }
        ensures connections { tame_connections self.new ≡ tame_connections self.old }
        ensures inputs { KeepsInputs self.old self.new }
    {
        if let Some(line) = self.script.next() {
            if is_ready(awaited, &self.opened, line) {
                return line;
            }
        }
        first_ready(awaited, &self.opened)
    }
}

impl Port for TamePort {
    ghost use Rattle.ports.specs.TamePorts.{tame_calls, tame_connections, tame_inputs, tame_streams, tame_script, port_most, AcceptsNext, BindsInputs, KeepsInputs};

    ghost told = { λ s. Some (tame_calls s) };

    ghost connections = { λ s. tame_connections s };

    ghost faults = { λ s. 0 };

    ghost connection_faults = { λ s. 0 };

    ghost Fixed = { Unit {0} };

    ghost fixed = { λ _. tt };

    fn bind(&mut self, port: u16) -> Result<(), IoFault>
        ensures call { PortBinds (Some (tame_calls self.old)) (Some (tame_calls self.new)) port result }
        ensures connections { IsBoundAfter (tame_connections self.old) (tame_connections self.new) result }
        ensures cause { HasCause 0 0 result }
        ensures script { tame_script self.new ≡ tame_script self.old }
        ensures inputs { BindsInputs self.old self.new result }
    {
        match self.calls.reserve(1) {
            Ok(()) => {}
            Err(_) => return Err(IoFault::Memory),
        }
        self.opened.clear();
        self.begun.clear();
        self.count = 0;
        self.calls.push_reserved(PortEntry::Bound(port));
        Ok(())
    }

    fn wait(&mut self, awaited: Awaited) -> Result<Ready, IoFault>
        requires some { awaited.client ≡ false → 0 < open_count (tame_connections self.old) }
        ensures ready { IfOk result (λ ready. IsReady awaited (tame_connections self.old) ready) }
        ensures call { PortWaits (Some (tame_calls self.old)) (Some (tame_calls self.new)) awaited result }
        ensures connections { tame_connections self.new ≡ tame_connections self.old }
        ensures cause { HasCause 0 0 result }
        ensures next { WaitsNext awaited (tame_connections self.old) (tame_script self.old) (tame_script self.new) result }
        ensures inputs { KeepsInputs self.old self.new }
    {
        match self.calls.reserve(self.count + 1) {
            Ok(()) => {}
            Err(_) => return Err(IoFault::Memory),
        }
        let ready = self.next_ready(awaited);
        self.calls
            .push_reserved(PortEntry::Waited { awaited, ready });
        Ok(ready)
    }

    fn accept(&mut self) -> Result<(), IoFault>
        requires few { accepted (tame_connections self.old) < 2 ^ 16 }
        ensures call { PortAccepts (Some (tame_calls self.old)) (Some (tame_calls self.new)) (accepted (tame_connections self.old)) result }
        ensures connections { IsConnectedAfter (tame_connections self.old) (tame_connections self.new) result }
        ensures cause { HasCause 0 0 result }
        ensures connection { AcceptsNext self.old self.new result }
        ensures script { tame_script self.new ≡ tame_script self.old }
    {
        if self.calls.reserve(self.count + 2).is_err() {
            return Err(IoFault::Memory);
        }
        if self.opened.reserve(1).is_err() {
            return Err(IoFault::Memory);
        }
        if self.begun.reserve(1).is_err() {
            return Err(IoFault::Memory);
        }
        let input = match self.inputs.next() {
            Some(input) => input,
            None => Vec::new(self.alloc),
        };
        let conn = self.opened.len() as Conn;
        self.begun.push_reserved(Input::make(input));
        self.opened.push_reserved(true);
        self.count += 1;
        self.calls.push_reserved(PortEntry::Accepted(conn));
        Ok(())
    }

    fn take(&mut self, conn: Conn, buf: &mut [u8]) -> Result<usize, IoFault>
        requires connected { is_open conn (tame_connections self.old) ≡ true }
        requires room { 0 < length buf.old }
        ensures count { IfOk result (λ n. n ≤ length buf.old) }
        ensures call { PortTakes (Some (tame_calls self.old)) (Some (tame_calls self.new)) conn result buf.new }
        ensures connections { tame_connections self.new ≡ tame_connections self.old }
        ensures cause { HasCause 0 0 result }
        ensures next { TakesAt (tame_streams self.old) (tame_streams self.new) conn buf.new result }
        ensures answer { GivesBy false (piece_len (port_most self.old) (length buf.old) (stream_at conn (tame_streams self.old))) result }
        ensures inputs { tame_inputs self.new ≡ tame_inputs self.old }
        ensures most { port_most self.new ≡ port_most self.old }
        ensures script { tame_script self.new ≡ tame_script self.old }
    {
        let room = buf.len();
        match self.calls.reserve(self.count + 1) {
            Ok(()) => {}
            Err(_) => return Err(IoFault::Memory),
        }
        let input = &mut self.begun[conn as usize];
        let piece = input.next_piece(self.most, room);
        let count = piece.len();
        buf[..count].copy_from_slice(piece);
        let bytes = match piece.to_vec(self.alloc) {
            Ok(bytes) => Bytes::from_vec(bytes),
            Err(_) => return Err(IoFault::Memory),
        };
        input.advance(count);
        self.calls
            .push_reserved(PortEntry::Took { conn, bytes, room });
        Ok(count)
    }

    fn give(&mut self, conn: Conn, bytes: &[u8]) -> Result<usize, IoFault>
        requires connected { is_open conn (tame_connections self.old) ≡ true }
        requires offered { 0 < length bytes.now }
        ensures count { IfOk result (λ n. IsPart n (length bytes.now)) }
        ensures call { PortGives (Some (tame_calls self.old)) (Some (tame_calls self.new)) conn result bytes.now }
        ensures connections { tame_connections self.new ≡ tame_connections self.old }
        ensures cause { HasCause 0 0 result }
        ensures answer { GivesBy false (min (port_most self.old) (length bytes.now)) result }
        ensures script { tame_script self.new ≡ tame_script self.old }
        ensures inputs { KeepsInputs self.old self.new }
    {
        match self.calls.reserve(self.count + 1) {
            Ok(()) => {}
            Err(_) => return Err(IoFault::Memory),
        }
        let offered = bytes.len();
        let count = self.most.min(offered);
        let (piece, _) = bytes.split_at(count);
        let bytes = match piece.to_vec(self.alloc) {
            Ok(bytes) => Bytes::from_vec(bytes),
            Err(_) => return Err(IoFault::Memory),
        };
        self.calls.push_reserved(PortEntry::Gave {
            conn,
            bytes,
            offered,
        });
        Ok(count)
    }

    fn close(&mut self, conn: Conn)
        requires { is_open conn (tame_connections self.old) ≡ true }
        ensures call { Logs (Some (tame_calls self.old)) (Some (tame_calls self.new)) (closed conn) }
        ensures connections { tame_connections self.new ≡ without conn (tame_connections self.old) }
        ensures script { tame_script self.new ≡ tame_script self.old }
        ensures inputs { KeepsInputs self.old self.new }
    {
        self.calls.push_reserved(PortEntry::Closed(conn));
        self.opened[conn as usize] = false;
        self.count -= 1;
    }
}
