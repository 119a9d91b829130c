// Counts as a value, and why a text is none.
ghost use Rattle.std.specs.Prelude.{◌≡◌, ℕ, List};
ghost use Rattle.counts_file.specs.Counts.{count_of};
ghost use Rattle.counts_file.specs.declared.counts.CountsRefusal.TheVariants.{Memory};

use rx_base::Conn;
use std::alloc::AllocError;
use std::marker::Model;

/// How many bytes each client has: a line for each of some connections, with its count of bytes, in rising order of the
/// connections.
#[derive(Debug, Drop)]
pub struct Counts {
    lines: Vec<(Conn, u64)>,
}

impl Model for Counts {
    ghost Value = { List (ℕ × ℕ) };

    ghost view = { λ c. c.lines.items };
}

impl Counts {
    /// The lines of a vector, in its order.
    pub fn from_vec(v: Vec<(Conn, u64)>) -> Counts
        ensures { result ≡ v.items }
    {
        Counts { lines: v }
    }

    /// The lines, each a connection and its count.
    pub fn as_slice(&self) -> &[(Conn, u64)]
        ensures { result.now ≡ self.now }
    {
        &self.lines
    }

    /// How many bytes a connection's client has: 0 where the connection has no line. It looks at one line after another.
    pub fn of(&self, conn: Conn) -> u64
        ensures { result ≡ count_of self.now conn }
    {
        for line in &self.lines {
            if line.0 == conn {
                return line.1;
            }
        }
        0
    }
}

/// Why a text wasn't read: its first line, counted from 1, that isn't of its form; or memory ran out.
#[derive(Clone, Copy, Debug, PartialEq, Eq)]
pub enum CountsRefusal {
    Refused { line: u32 },
    Memory,
}

impl From<AllocError> for CountsRefusal {
    ghost from_gives = { λ _ e. e ≡ Memory };

    fn from(_error: AllocError) -> CountsRefusal {
        CountsRefusal::Memory
    }
}
