// The standard input as a source.
ghost use Rattle.std.specs.Prelude.{◌≡◌, None};

use crate::Source;
use crate::read_ahead::ReadAhead;
use rx_base::IoFault;

/// The standard input, of which nothing is told. It reads ahead of what is asked for, up to 4096 bytes by one system read, and
/// reads again only where all of them were given. What isn't given in the end is lost to a later reader.
#[derive(Drop)]
pub struct StdSource<R: Input> {
    reader: R::Reader,
    ahead: ReadAhead,
    faults: u64,
}

impl<R: Input> StdSource<R> {
    /// The standard input as it stands. Nothing is read before the first call.
    pub fn make(rt: &R) -> StdSource<R>
        ensures { ⟦<StdSource<R> as Source>⟧.faults result ≡ 0 }
    {
        StdSource {
            reader: rt.reader(),
            ahead: ReadAhead::new(),
            faults: 0,
        }
    }
}

impl<R: Input> Source for StdSource<R> {
    ghost told = { λ _. None };

    ghost faults = { λ s. s.faults };

    ghost Fixed = { Unit {0} };

    ghost fixed = { λ _. tt };

    ghost countable = { λ _. tt };

    fn take(&mut self, buf: &mut [u8]) -> Result<usize, IoFault> {
        match self.ahead.read(&mut self.reader, buf) {
            Some(count) => Ok(count),
            None => {
                self.faults = self.faults.saturating_add(1);
                Err(IoFault::Failed)
            }
        }
    }
}
