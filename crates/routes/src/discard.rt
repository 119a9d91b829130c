// A sink that keeps nothing.
ghost use Rattle.std.specs.Prelude.{None};

use rx_base::IoFault;
use rx_io::Sink;

// Takes all bytes, tells none of them, and never fails.
#[derive(Clone, Copy, Debug)]
pub(crate) struct Discard;

impl Sink for Discard {
    ghost told = { λ _. None };

    ghost faults = { λ _. 0 };

    ghost Fixed = { Unit {0} };

    ghost fixed = { λ _. tt };

    ghost countable = { λ _. tt };

    fn give(&mut self, bytes: &[u8]) -> Result<usize, IoFault> {
        Ok(bytes.len())
    }
}
