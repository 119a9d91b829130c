// Environments in which a program's allocator answers.
ghost use Rattle.std.specs.Prelude.{◌≡◌, ◌%◌, ◌≤◌};
ghost use Rattle.alloc_env.specs.Treatment.{treatment_of};

use crate::treatment::Treatment;

/// An environment of a program: how its allocator places, zeroes and frees blocks.
#[derive(Clone, Copy, Debug, PartialEq, Eq)]
pub enum Env {
    /// A block is placed at the lowest address at which it fits, and a freed one is gone at once.
    Plain,
    /// Each block has 256 bytes of padding on each side.
    Pad,
    /// The bytes of a new block are to be set to 0.
    Zero,
    /// A block is placed at or above the middle of the heap, where it fits there.
    Isolate,
    /// A freed block is kept from use until nothing else is left.
    Delay,
    /// All of these at once.
    All,
}

impl Env {
    // What the environment does to blocks.
    pub(crate) fn treatment(self) -> Treatment
        ensures value { result ≡ treatment_of self }
        ensures multiple { result.side % 16 ≡ 0 }
        ensures small { result.side ≤ 256 }
    {
        let all = self == Env::All;
        Treatment {
            side: if all || self == Env::Pad { 256 } else { 0 },
            zeroes: all || self == Env::Zero,
            isolates: all || self == Env::Isolate,
            delays: all || self == Env::Delay,
        }
    }
}
