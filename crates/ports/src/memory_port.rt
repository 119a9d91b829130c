// A port in memory of which certain calls fail.
ghost use Rattle.std.specs.Prelude.{◌≡◌, ◌^◌, ◌<◌, ◌≤◌, [], length, min, Some, IfOk, true, false};
ghost use Rattle.ports.specs.Connections.{accepted, is_open, open_count, without, IsBoundAfter, IsConnectedAfter, IsReady};
ghost use Rattle.ports.specs.PortPlans.{first_port_plan, after_port_call, port_fails, AnswersBy, MovesBy};
ghost use Rattle.ports.specs.Calls.{PortBinds, PortWaits, PortAccepts, PortTakes, PortGives, Logs, closed};
ghost use Rattle.ports.specs.Scripts.{WaitsNext};
ghost use Rattle.ports.specs.Streams.{TakesAt, stream_at};
ghost use Rattle.ports.specs.MemoryPorts.{clients_of, memory_calls, memory_connections, port_plan, accept_fails};
ghost use Rattle.ports.specs.TamePorts.{tame_inputs, tame_script, tame_streams, port_most, contents_of_all, AcceptsNext, BindsInputs, KeepsInputs};
ghost use Rattle.ports.specs.declared.port_calls.PortCall.TheVariants as call;
ghost use Rattle.rx_base.specs.Faults.{HasCause};
ghost use Rattle.rx_base.specs.Taking.{IsPart};
ghost use Rattle.rx_base.specs.Outside.{piece_len};

use crate::port_fails::PortFails;
use crate::{Awaited, FailedCall, Port, PortCall, PortEntry, Ready, TamePort};
use rx_base::{Conn, IoFault};
use std::alloc::Global;

/// Connections whose inputs are prepared, a script of what is ready, and calls that fail. An accept past the last input fails too.
#[derive(Drop)]
pub struct MemoryPort {
    port: TamePort,
    fails: PortFails,
}

impl MemoryPort {
    /// The connections' inputs, in the order in which they are accepted, and what the waits answer one after another. A call takes
    /// or gives at most `most` bytes. The calls in `fails` answer `Failed`: each is of a kind, and has its number among the calls of
    /// that kind, counted from 1 over all connections. A wait that fails takes no line of the script.
    pub fn make(
        alloc: Global,
        inputs: Vec<Vec<u8>>,
        script: Vec<Ready>,
        fails: Vec<(PortCall, u64)>,
        most: usize,
    ) -> MemoryPort
        requires { 1 ≤ most }
        ensures calls { memory_calls result ≡ [] }
        ensures connections { memory_connections result ≡ [] }
        ensures streams { tame_streams (clients_of result) ≡ [] }
        ensures inputs { tame_inputs (clients_of result) ≡ contents_of_all inputs.items }
        ensures script { tame_script (clients_of result) ≡ script.items }
        ensures most { port_most (clients_of result) ≡ most }
        ensures plan { port_plan result ≡ first_port_plan fails.items }
    {
        MemoryPort {
            port: TamePort::make(alloc, inputs, script, most),
            fails: PortFails::make(fails),
        }
    }

    /// All calls with their answers, in order.
    pub fn calls(&self) -> &[PortEntry]
        ensures { result.now ≡ memory_calls self.now }
    {
        self.port.calls()
    }
}

impl Port for MemoryPort {
    ghost told = { λ s. Some (memory_calls s) };

    ghost connections = { λ s. memory_connections s };

    ghost faults = { λ s. (port_plan s).faults };

    ghost connection_faults = { λ s. (port_plan s).connection_faults };

    ghost Fixed = { Unit {0} };

    ghost fixed = { λ _. tt };

    fn bind(&mut self, port: u16) -> Result<(), IoFault>
        ensures call { PortBinds (Some (memory_calls self.old)) (Some (memory_calls self.new)) port result }
        ensures connections { IsBoundAfter (memory_connections self.old) (memory_connections self.new) result }
        ensures cause { HasCause (port_plan self.old).faults (port_plan self.new).faults result }
        ensures answer { AnswersBy (port_fails call.Bind false (port_plan self.old)) result }
        ensures plan { port_plan self.new ≡ after_port_call call.Bind (port_fails call.Bind false (port_plan self.old)) (port_plan self.old) }
        ensures script { tame_script (clients_of self.new) ≡ tame_script (clients_of self.old) }
        ensures inputs { BindsInputs (clients_of self.old) (clients_of self.new) result }
    {
        if self.fails.call_fails(PortCall::Bind, false) {
            return Err(self.port.fail(FailedCall::Bind));
        }
        self.port.bind(port)
    }

    fn wait(&mut self, awaited: Awaited) -> Result<Ready, IoFault>
        requires some { awaited.client ≡ false → 0 < open_count (memory_connections self.old) }
        ensures ready { IfOk result (λ ready. IsReady awaited (memory_connections self.old) ready) }
        ensures call { PortWaits (Some (memory_calls self.old)) (Some (memory_calls self.new)) awaited result }
        ensures connections { memory_connections self.new ≡ memory_connections self.old }
        ensures cause { HasCause (port_plan self.old).faults (port_plan self.new).faults result }
        ensures answer { AnswersBy (port_fails call.Wait false (port_plan self.old)) result }
        ensures plan { port_plan self.new ≡ after_port_call call.Wait (port_fails call.Wait false (port_plan self.old)) (port_plan self.old) }
        ensures next { WaitsNext awaited (memory_connections self.old) (tame_script (clients_of self.old)) (tame_script (clients_of self.new)) result }
        ensures inputs { KeepsInputs (clients_of self.old) (clients_of self.new) }
    {
        if self.fails.call_fails(PortCall::Wait, false) {
            return Err(self.port.fail(FailedCall::Wait));
        }
        self.port.wait(awaited)
    }

    /// Past the last input it fails.
    fn accept(&mut self) -> Result<(), IoFault>
        requires few { accepted (memory_connections self.old) < 2 ^ 16 }
        ensures call { PortAccepts (Some (memory_calls self.old)) (Some (memory_calls self.new)) (accepted (memory_connections self.old)) result }
        ensures connections { IsConnectedAfter (memory_connections self.old) (memory_connections self.new) result }
        ensures cause { HasCause (port_plan self.old).faults (port_plan self.new).faults result }
        ensures answer { AnswersBy (accept_fails self.old) result }
        ensures plan { port_plan self.new ≡ after_port_call call.Accept (accept_fails self.old) (port_plan self.old) }
        ensures connection { AcceptsNext (clients_of self.old) (clients_of self.new) result }
        ensures script { tame_script (clients_of self.new) ≡ tame_script (clients_of self.old) }
    {
        let besides = self.port.has_no_input();
        if self.fails.call_fails(PortCall::Accept, besides) {
            return Err(self.port.fail(FailedCall::Accept));
        }
        self.port.accept()
    }

    fn take(&mut self, conn: Conn, buf: &mut [u8]) -> Result<usize, IoFault>
        requires connected { is_open conn (memory_connections self.old) ≡ true }
        requires room { 0 < length buf.old }
        ensures count { IfOk result (λ n. n ≤ length buf.old) }
        ensures call { PortTakes (Some (memory_calls self.old)) (Some (memory_calls self.new)) conn result buf.new }
        ensures connections { memory_connections self.new ≡ memory_connections self.old }
        ensures cause { HasCause (port_plan self.old).connection_faults (port_plan self.new).connection_faults result }
        ensures next { TakesAt (tame_streams (clients_of self.old)) (tame_streams (clients_of self.new)) conn buf.new result }
        ensures answer { MovesBy (port_fails call.Take false (port_plan self.old)) (piece_len (port_most (clients_of self.old)) (length buf.old) (stream_at conn (tame_streams (clients_of self.old)))) result }
        ensures plan { port_plan self.new ≡ after_port_call call.Take (port_fails call.Take false (port_plan self.old)) (port_plan self.old) }
        ensures inputs { tame_inputs (clients_of self.new) ≡ tame_inputs (clients_of self.old) }
        ensures most { port_most (clients_of self.new) ≡ port_most (clients_of self.old) }
        ensures script { tame_script (clients_of self.new) ≡ tame_script (clients_of self.old) }
    {
        if self.fails.call_fails(PortCall::Take, false) {
            return Err(self.port.fail(FailedCall::Take(conn)));
        }
        self.port.take(conn, buf)
    }

    fn give(&mut self, conn: Conn, bytes: &[u8]) -> Result<usize, IoFault>
        requires connected { is_open conn (memory_connections self.old) ≡ true }
        requires offered { 0 < length bytes.now }
        ensures count { IfOk result (λ n. IsPart n (length bytes.now)) }
        ensures call { PortGives (Some (memory_calls self.old)) (Some (memory_calls self.new)) conn result bytes.now }
        ensures connections { memory_connections self.new ≡ memory_connections self.old }
        ensures cause { HasCause (port_plan self.old).connection_faults (port_plan self.new).connection_faults result }
        ensures answer { MovesBy (port_fails call.Give false (port_plan self.old)) (min (port_most (clients_of self.old)) (length bytes.now)) result }
        ensures plan { port_plan self.new ≡ after_port_call call.Give (port_fails call.Give false (port_plan self.old)) (port_plan self.old) }
        ensures script { tame_script (clients_of self.new) ≡ tame_script (clients_of self.old) }
        ensures inputs { KeepsInputs (clients_of self.old) (clients_of self.new) }
    {
        if self.fails.call_fails(PortCall::Give, false) {
            return Err(self.port.fail(FailedCall::Give(conn)));
        }
        self.port.give(conn, bytes)
    }

    fn close(&mut self, conn: Conn)
        requires { is_open conn (memory_connections self.old) ≡ true }
        ensures call { Logs (Some (memory_calls self.old)) (Some (memory_calls self.new)) (closed conn) }
        ensures connections { memory_connections self.new ≡ without conn (memory_connections self.old) }
        ensures plan { port_plan self.new ≡ port_plan self.old }
        ensures script { tame_script (clients_of self.new) ≡ tame_script (clients_of self.old) }
        ensures inputs { KeepsInputs (clients_of self.old) (clients_of self.new) }
    {
        self.port.close(conn);
    }
}
