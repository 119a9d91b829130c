// A piece for a connection of a port.
ghost use Rattle.std.specs.Prelude.{◌≡◌, ◌<◌, ◌≤◌, true, length, Ok};
ghost use Rattle.rx_base.specs.Faults.{Rose};
ghost use Rattle.ports.specs.Connections.{is_open};
ghost use Rattle.links.specs.Links.{IsGone};
ghost use Rattle.port_link.specs.Stages.{is_given};
ghost use Rattle.port_link.specs.Standing.{IsWhole, Stands, stage_at};
ghost use Rattle.port_link.specs.Gives.{GivesTo, GivesPiece};

use crate::place::{Place, PortLimits, Stage, stage_behind};
use links::{Given, LinkFault};
use ports::Port;
use rx_base::{Conn, IoFault};

// Gives bytes to an open connection, over as many calls as it wants.
fn give_piece<P: Port>(port: &mut P, conn: Conn, bytes: &[u8]) -> Result<Given, LinkFault>
    requires connected { is_open conn (P.connections port.old) ≡ true }
    requires some { 0 < length bytes.now }
    ensures calls { GivesTo conn (P.told port.old) (P.told port.new) bytes.now result }
    ensures connections { P.connections port.new ≡ P.connections port.old }
    ensures gone { IsGone result → Rose (P.connection_faults port.old) (P.connection_faults port.new) }
    ensures faults { P.faults port.new ≡ P.faults port.old }
    ensures fixed { P.fixed port.new ≡ P.fixed port.old }
{
    let mut rest = bytes;
    'rest: loop {
        match port.give(conn, rest) {
            Ok(count) => {
                if count == rest.len() {
                    return Ok(Given::All);
                }
                (_, rest) = rest.split_at(count);
            }
            Err(IoFault::Failed) => return Ok(Given::Gone(bytes.len() - rest.len())),
            Err(IoFault::Memory) => return Err(LinkFault::Memory),
        }
    }
}

// Gives a piece to a connection. One that was closed, since a give to it had failed, gets no more.
pub(crate) fn give_present<P: Port>(
    port: &mut P,
    place: &mut Place,
    limits: PortLimits,
    conn: Conn,
    bytes: &[u8],
) -> Result<Given, LinkFault>
    requires few { conn < 4096 }
    requires given { is_given (stage_at place.old conn) ≡ true }
    requires some { 0 < length bytes.now }
    requires stands { Stands (P.told port.old) (P.connections port.old) limits place.old }
    requires whole { IsWhole (P.told port.old) }
    ensures gives { GivesPiece limits conn (P.told port.old) (P.told port.new) (P.connections port.new) place.old place.new bytes.now result }
    ensures gone { IsGone result → Rose (P.connection_faults port.old) (P.connection_faults port.new) }
    ensures faults { P.faults port.new ≡ P.faults port.old }
    ensures fixed { P.fixed port.new ≡ P.fixed port.old }
{
    let stage = place.stages[conn as usize];
    if let Stage::Dropped = stage {
        return Err(LinkFault::Memory);
    }
    let answer = give_piece(port, conn, bytes);
    place.stages[conn as usize] = stage_behind(stage, &answer);
    answer
}
