// The next event of a port.
ghost use Rattle.std.specs.Prelude.{◌≡◌, ◌<◌, ◌≤◌, true, false, IfOk};
ghost use Rattle.ports.specs.Connections.{is_open, IsReady};
ghost use Rattle.port_link.specs.Stages.{is_broken};
ghost use Rattle.port_link.specs.Standing.{Stands, WasReady, stage_at};
ghost use Rattle.ports.specs.declared.port_calls.Ready.TheVariants.{Accepts, Reads};
ghost use Rattle.port_link.specs.Served.{is_stop};
ghost use Rattle.port_link.specs.Steps.{AnswersEnd, IsWaited, Settles, TakesPiece, TakesNext, WaitsAt, HasOpenCause, NextGoes, read_fault_of, waited_place};
ghost use Rattle.port_link.specs.Taking.{awaited_at, is_over, may_accept, NoneBroken};

use crate::place::{Closing, Place, PortLimits, Stage, first_broken};
use links::{LinkEvent, LinkFault};
use ports::{Awaited, Port, Ready};
use rx_base::{Bytes, Conn, IoFault};
use std::alloc::Global;

// Closes the connection whose close was answered last, if that wasn't done before.
fn settle<P: Port>(port: &mut P, place: &mut Place, limits: PortLimits)
    requires few { limits.conns ≤ 4096 }
    requires stands { Stands (P.told port.old) (P.connections port.old) limits place.old }
    ensures settles { Settles limits (P.told port.old) (P.told port.new) (P.connections port.new) place.old place.new }
    ensures faults { P.faults port.new ≡ P.faults port.old }
    ensures fixed { P.fixed port.new ≡ P.fixed port.old }
{
    match place.closing {
        Closing::Nothing => {}
        Closing::Due(conn) => {
            port.close(conn);
            place.stages[conn as usize] = Stage::Closed;
            place.closed += 1;
            place.closing = Closing::Nothing;
        }
        Closing::Made(conn) => {
            place.stages[conn as usize] = Stage::Closed;
            place.closing = Closing::Nothing;
        }
    }
}

// A wait or an accept that failed is a fault of reading.
fn read_fault(fault: IoFault) -> LinkFault
    ensures { result ≡ read_fault_of fault }
{
    match fault {
        IoFault::Failed => LinkFault::ReadFault,
        IoFault::Memory => LinkFault::Memory,
    }
}

// Whether a client may be accepted.
fn may_accept(place: &Place, limits: PortLimits) -> bool
    ensures { result ≡ may_accept limits place.now }
{
    let has_room = place.accepted < limits.conns
        && u64::from(place.accepted) < u64::from(place.closed) + u64::from(limits.at_once);
    !place.stopped && has_room
}

// Whether all connections that were accepted are closed, and no more are to come.
fn is_over(place: &Place, limits: PortLimits) -> bool
    ensures { result ≡ is_over limits place.now }
{
    let is_last = place.accepted == limits.conns || place.stopped;
    place.closed == place.accepted && is_last
}

// What is awaited besides the open connections.
fn awaited_at(place: &Place, limits: PortLimits) -> Awaited
    ensures { result ≡ awaited_at limits place.now }
{
    Awaited {
        client: may_accept(place, limits),
        stop: limits.stops && !place.stopped,
    }
}

// Whether it is a stop.
fn is_stop(ready: Ready) -> bool
    ensures { result ≡ is_stop ready }
{
    match ready {
        Ready::Accepts => false,
        Ready::Reads(_) => false,
        Ready::Stops => true,
    }
}

// Keeps whether a wait answered a stop.
fn keep_stop(place: &mut Place, ready: Ready)
    ensures { place.new ≡ waited_place ready place.old }
{
    place.stopped = is_stop(ready) || place.stopped;
}

// Waits for an open connection, for a client where one may be accepted, and for a stop where one may be asked for. A stop is kept.
fn wait_ready<P: Port>(
    port: &mut P,
    place: &mut Place,
    limits: PortLimits,
) -> Result<Ready, LinkFault>
    requires more { is_over limits place.old ≡ false }
    requires some { 1 ≤ limits.at_once }
    requires nothing { place.old.closing ≡ Closing.Nothing }
    requires none { NoneBroken place.old }
    requires stands { Stands (P.told port.old) (P.connections port.old) limits place.old }
    ensures ready { IfOk result (λ ready. IsReady (awaited_at limits place.old) (P.connections port.new) ready) }
    ensures was { IfOk result (λ ready. WasReady ready (P.told port.new)) }
    ensures place { IsWaited result place.old place.new }
    ensures goes { NextGoes result }
    ensures waits { WaitsAt limits (P.told port.old) (P.told port.new) (P.connections port.new) place.old place.new }
    ensures cause { HasOpenCause (P.faults port.old) (P.faults port.new) result }
    ensures fixed { P.fixed port.new ≡ P.fixed port.old }
{
    match port.wait(awaited_at(place, limits)) {
        Ok(ready) => {
            keep_stop(place, ready);
            Ok(ready)
        }
        Err(fault) => Err(read_fault(fault)),
    }
}

// Accepts the next connection.
fn open_next<P: Port>(
    port: &mut P,
    place: &mut Place,
    limits: PortLimits,
) -> Result<LinkEvent, LinkFault>
    requires may { may_accept limits place.old ≡ true }
    requires was { WasReady Accepts (P.told port.old) }
    requires less { place.old.accepted < limits.conns }
    requires few { limits.conns ≤ 4096 }
    requires nothing { place.old.closing ≡ Closing.Nothing }
    requires stands { Stands (P.told port.old) (P.connections port.old) limits place.old }
    ensures takes { TakesNext limits (P.told port.old) (P.told port.new) (P.connections port.new) place.old place.new result }
    ensures cause { HasOpenCause (P.faults port.old) (P.faults port.new) result }
    ensures fixed { P.fixed port.new ≡ P.fixed port.old }
{
    match port.accept() {
        Ok(()) => {
            let conn = place.accepted;
            place.stages[conn as usize] = Stage::Open;
            place.accepted += 1;
            Ok(LinkEvent::Opens(conn))
        }
        Err(fault) => Err(read_fault(fault)),
    }
}

// Takes at most 4096 bytes of a connection: none at the end of its input, or where the take failed. The room for them is made
// before, so that none is lost.
fn take_piece<P: Port>(alloc: Global, port: &mut P, conn: Conn) -> Result<Vec<u8>, LinkFault>
    requires { is_open conn (P.connections port.old) ≡ true }
    ensures calls { TakesPiece conn (P.told port.old) (P.told port.new) result }
    ensures connections { P.connections port.new ≡ P.connections port.old }
    ensures faults { P.faults port.new ≡ P.faults port.old }
    ensures fixed { P.fixed port.new ≡ P.fixed port.old }
{
    let Ok(mut buf) = vec![in alloc; 0u8; 4096] else {
        return Err(LinkFault::Memory);
    };
    match port.take(conn, buf.as_mut_slice()) {
        Ok(count) => {
            buf.truncate(count);
            Ok(buf)
        }
        Err(IoFault::Failed) => Ok(Vec::new(alloc)),
        Err(IoFault::Memory) => Err(LinkFault::Memory),
    }
}

// Takes a piece of a connection, or its close.
fn take_next<P: Port>(
    alloc: Global,
    port: &mut P,
    place: &mut Place,
    limits: PortLimits,
    conn: Conn,
) -> Result<LinkEvent, LinkFault>
    requires connected { is_open conn (P.connections port.old) ≡ true }
    requires was { WasReady (Reads conn) (P.told port.old) }
    requires within { conn < 4096 }
    requires nothing { place.old.closing ≡ Closing.Nothing }
    requires none { NoneBroken place.old }
    requires few { limits.conns ≤ 4096 }
    requires stands { Stands (P.told port.old) (P.connections port.old) limits place.old }
    ensures takes { TakesNext limits (P.told port.old) (P.told port.new) (P.connections port.new) place.old place.new result }
    ensures cause { HasOpenCause (P.faults port.old) (P.faults port.new) result }
    ensures fixed { P.fixed port.new ≡ P.fixed port.old }
{
    match take_piece(alloc, port, conn) {
        Ok(bytes) => {
            if bytes.len() == 0 {
                place.stages[conn as usize] = Stage::Ended;
                place.closing = Closing::Due(conn);
                return Ok(LinkEvent::Closes(conn));
            }
            Ok(LinkEvent::Piece(conn, Bytes::from_vec(bytes)))
        }
        Err(fault) => Err(fault),
    }
}

// Closes a connection to which a give failed, and answers that.
fn drop_broken<P: Port>(
    port: &mut P,
    place: &mut Place,
    limits: PortLimits,
    conn: Conn,
) -> Result<LinkEvent, LinkFault>
    requires broken { is_broken (stage_at place.old conn) ≡ true }
    requires within { conn < 4096 }
    requires few { limits.conns ≤ 4096 }
    requires nothing { place.old.closing ≡ Closing.Nothing }
    requires stands { Stands (P.told port.old) (P.connections port.old) limits place.old }
    ensures takes { TakesNext limits (P.told port.old) (P.told port.new) (P.connections port.new) place.old place.new result }
    ensures cause { HasOpenCause (P.faults port.old) (P.faults port.new) result }
    ensures fixed { P.fixed port.new ≡ P.fixed port.old }
{
    port.close(conn);
    place.stages[conn as usize] = Stage::Dropped;
    place.closed += 1;
    place.closing = Closing::Made(conn);
    Ok(LinkEvent::Closes(conn))
}

// Answers the end, a bounded number of times.
fn answer_end(place: &mut Place) -> Result<LinkEvent, LinkFault>
    ensures { AnswersEnd place.old place.new result }
{
    if place.ends == u64::MAX {
        return Err(LinkFault::Memory);
    }
    place.ends += 1;
    Ok(LinkEvent::Ends)
}

// Behind a stop: ends where no connection is open, and else takes of the next one that can be read of.
fn end_or_take<P: Port>(
    alloc: Global,
    port: &mut P,
    place: &mut Place,
    limits: PortLimits,
) -> Result<LinkEvent, LinkFault>
    requires stopped { place.old.stopped ≡ true }
    requires some { 1 ≤ limits.at_once }
    requires few { limits.conns ≤ 4096 }
    requires nothing { place.old.closing ≡ Closing.Nothing }
    requires none { NoneBroken place.old }
    requires stands { Stands (P.told port.old) (P.connections port.old) limits place.old }
    ensures takes { TakesNext limits (P.told port.old) (P.told port.new) (P.connections port.new) place.old place.new result }
    ensures cause { HasOpenCause (P.faults port.old) (P.faults port.new) result }
    ensures fixed { P.fixed port.new ≡ P.fixed port.old }
{
    if is_over(place, limits) {
        return answer_end(place);
    }
    match wait_ready(port, place, limits) {
        Ok(Ready::Reads(conn)) => take_next(alloc, port, place, limits, conn),
        // Behind a stop neither a client nor a stop is awaited.
        Ok(Ready::Accepts) => unreachable!(),
        Ok(Ready::Stops) => unreachable!(),
        Err(fault) => Err(fault),
    }
}

// Ends where no connection is open and none is to come, and else waits for what can be done next, and does that.
fn end_or_wait<P: Port>(
    alloc: Global,
    port: &mut P,
    place: &mut Place,
    limits: PortLimits,
) -> Result<LinkEvent, LinkFault>
    requires some { 1 ≤ limits.at_once }
    requires few { limits.conns ≤ 4096 }
    requires nothing { place.old.closing ≡ Closing.Nothing }
    requires none { NoneBroken place.old }
    requires stands { Stands (P.told port.old) (P.connections port.old) limits place.old }
    ensures takes { TakesNext limits (P.told port.old) (P.told port.new) (P.connections port.new) place.old place.new result }
    ensures cause { HasOpenCause (P.faults port.old) (P.faults port.new) result }
    ensures fixed { P.fixed port.new ≡ P.fixed port.old }
{
    if is_over(place, limits) {
        return answer_end(place);
    }
    match wait_ready(port, place, limits) {
        Ok(Ready::Accepts) => open_next(port, place, limits),
        Ok(Ready::Reads(conn)) => take_next(alloc, port, place, limits, conn),
        Ok(Ready::Stops) => end_or_take(alloc, port, place, limits),
        Err(fault) => Err(fault),
    }
}

// The next event where none was answered that is to be made. A connection to which a give failed is closed first; the link ends where
// all connections were closed, and no more are to come.
fn answer_next<P: Port>(
    alloc: Global,
    port: &mut P,
    place: &mut Place,
    limits: PortLimits,
) -> Result<LinkEvent, LinkFault>
    requires some { 1 ≤ limits.at_once }
    requires few { limits.conns ≤ 4096 }
    requires nothing { place.old.closing ≡ Closing.Nothing }
    requires stands { Stands (P.told port.old) (P.connections port.old) limits place.old }
    ensures takes { TakesNext limits (P.told port.old) (P.told port.new) (P.connections port.new) place.old place.new result }
    ensures cause { HasOpenCause (P.faults port.old) (P.faults port.new) result }
    ensures fixed { P.fixed port.new ≡ P.fixed port.old }
{
    match first_broken(&place.stages) {
        Some(conn) => drop_broken(port, place, limits, conn as Conn),
        None => end_or_wait(alloc, port, place, limits),
    }
}

/// The next event. A connection whose close was answered is closed first.
pub fn next_event<P: Port>(
    alloc: Global,
    port: &mut P,
    place: &mut Place,
    limits: PortLimits,
) -> Result<LinkEvent, LinkFault>
    requires some { 1 ≤ limits.at_once }
    requires few { limits.conns ≤ 4096 }
    requires stands { Stands (P.told port.old) (P.connections port.old) limits place.old }
    ensures takes { TakesNext limits (P.told port.old) (P.told port.new) (P.connections port.new) place.old place.new result }
    ensures cause { HasOpenCause (P.faults port.old) (P.faults port.new) result }
    ensures fixed { P.fixed port.new ≡ P.fixed port.old }
{
    settle(port, place, limits);
    answer_next(alloc, port, place, limits)
}
