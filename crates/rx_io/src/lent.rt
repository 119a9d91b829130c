// Objects outside that are lent: no call changes which object the reference is to.
ghost use Rattle.std.specs.Borrow.{GName};

use crate::{Files, Sink, Source};
use rx_base::{IoFault, LoadFault};
use std::alloc::Global;

impl<T: Source> Source for &mut T {
    ghost told = { λ s. T.told s.now };

    ghost faults = { λ s. T.faults s.now };

    ghost Fixed = { GName × T.Fixed };

    ghost fixed = { λ s. (s.ghost_name, T.fixed s.now) };

    ghost countable = { λ s. T.countable s.now };

    fn take(&mut self, buf: &mut [u8]) -> Result<usize, IoFault> {
        Source::take(&mut **self, buf)
    }
}

impl<T: Sink> Sink for &mut T {
    ghost told = { λ s. T.told s.now };

    ghost faults = { λ s. T.faults s.now };

    ghost Fixed = { GName × T.Fixed };

    ghost fixed = { λ s. (s.ghost_name, T.fixed s.now) };

    ghost countable = { λ s. T.countable s.now };

    fn give(&mut self, bytes: &[u8]) -> Result<usize, IoFault> {
        Sink::give(&mut **self, bytes)
    }
}

impl<T: Files> Files for &mut T {
    ghost told = { λ s. T.told s.now };

    ghost calls = { λ s. T.calls s.now };

    ghost faults = { λ s. T.faults s.now };

    ghost Fixed = { GName × T.Fixed };

    ghost fixed = { λ s. (s.ghost_name, T.fixed s.now) };

    fn load(&mut self, alloc: Global, name: &str, limit: u64) -> Result<Vec<u8>, LoadFault> {
        Files::load(&mut **self, alloc, name, limit)
    }

    fn start(&mut self, name: &str) -> Result<(), IoFault> {
        Files::start(&mut **self, name)
    }

    fn add(&mut self, name: &str, bytes: &[u8]) -> Result<(), IoFault> {
        Files::add(&mut **self, name, bytes)
    }
}
