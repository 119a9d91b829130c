// A port that is lent: no call changes which object the reference is to.
ghost use Rattle.std.specs.Borrow.{GName};

use crate::{Awaited, Port, Ready};
use rx_base::{Conn, IoFault};

impl<T: Port> Port for &mut T {
    ghost told = { λ s. T.told s.now };

    ghost connections = { λ s. T.connections s.now };

    ghost faults = { λ s. T.faults s.now };

    ghost connection_faults = { λ s. T.connection_faults s.now };

    ghost Fixed = { GName × T.Fixed };

    ghost fixed = { λ s. (s.ghost_name, T.fixed s.now) };

    fn bind(&mut self, port: u16) -> Result<(), IoFault> {
        Port::bind(&mut **self, port)
    }

    fn wait(&mut self, awaited: Awaited) -> Result<Ready, IoFault> {
        Port::wait(&mut **self, awaited)
    }

    fn accept(&mut self) -> Result<(), IoFault> {
        Port::accept(&mut **self)
    }

    fn take(&mut self, conn: Conn, buf: &mut [u8]) -> Result<usize, IoFault> {
        Port::take(&mut **self, conn, buf)
    }

    fn give(&mut self, conn: Conn, bytes: &[u8]) -> Result<usize, IoFault> {
        Port::give(&mut **self, conn, bytes)
    }

    fn close(&mut self, conn: Conn) {
        Port::close(&mut **self, conn)
    }
}
