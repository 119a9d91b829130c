// The standard output as a sink.
ghost use Rattle.std.specs.Prelude.{◌≡◌, None};

use crate::Sink;
use crate::attempts::write_some;
use rx_base::IoFault;
use std::io;

/// The standard output, of which nothing is told. Each call is one system write, without a buffer.
#[derive(Drop)]
pub struct StdSink<'a, R: Print> {
    rt: &'a R,
    faults: u64,
}

impl<'a, R: Print> StdSink<'a, R> {
    pub fn make(rt: &'a R) -> StdSink<'a, R>
        ensures { ⟦<StdSink<'a, R> as Sink>⟧.faults result ≡ 0 }
    {
        StdSink { rt, faults: 0 }
    }
}

impl<R: Print> Sink for StdSink<'_, R> {
    ghost told = { λ _. None };

    ghost faults = { λ s. s.faults };

    ghost Fixed = { Unit {0} };

    ghost fixed = { λ _. tt };

    ghost countable = { λ _. tt };

    fn give(&mut self, bytes: &[u8]) -> Result<usize, IoFault> {
        match write_some(&mut io::writer(self.rt), bytes) {
            Some(count) => Ok(count),
            None => {
                self.faults = self.faults.saturating_add(1);
                Err(IoFault::Failed)
            }
        }
    }
}
