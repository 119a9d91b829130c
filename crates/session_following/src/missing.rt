// How many bytes clients have beyond what was sent to them, by connection.
ghost use Rattle.std.specs.Prelude.{◌≡◌, ℕ, ◌-◌, ◌<◌, ◌≤◌, ◌^◌, List, [], ◌∷◌, ◌++◌, length, set, slice_index, IfOk, OnOk};
ghost use Rattle.follow.specs.Terms.{Send};
ghost use Rattle.session_following.specs.Missing.{HasCounts, IsFirst, IsLeast, IsMissing};

use rx_base::Conn;
use std::alloc::{AllocError, Global};
use std::marker::Model;

/// How many bytes each client lacks: those that it has, as a file of counts says, and that weren't sent to its connection yet. It has a number for each
/// connection up to the last one of the file, and where the least one that lacks bytes is looked for, so that all searches together go over the connections
/// once.
#[derive(Debug, Drop)]
pub struct Missing {
    numbers: Vec<u64>,
    cursor: usize,
}

impl Model for Missing {
    ghost use Rattle.std.specs.Prelude.{ℕ, List};
    ghost use Rattle.session_following.specs.Missing.{KeepsCursor};

    ghost Value = { List ℕ };

    ghost view = { λ m. m.numbers.items };

    ghost invariant = { λ m. KeepsCursor m.numbers.items m.cursor };
}

// The first place from one on where a number isn't 0, or the end.
fn first_from(numbers: &[u64], from: usize) -> usize
    requires { from ≤ length numbers.now }
    ensures { IsFirst numbers.now from result }
{
    let mut at = from;
    'numbers: while at < numbers.len() {
        if numbers[at] != 0 {
            return at;
        }
        at += 1;
    }
    at
}

// Puts numbers behind the others, each 0, up to so many.
fn lengthen(numbers: &mut Vec<u64>, count: usize) -> Result<(), AllocError>
    requires { count ≤ 2 ^ 32 }
    ensures many { OnOk result (count ≤ length numbers.new.items) }
    ensures few { length numbers.old.items ≤ 2 ^ 32 → length numbers.new.items ≤ 2 ^ 32 }
    ensures same { (conn : ℕ) → slice_index numbers.new.items conn ≡ slice_index numbers.old.items conn }
{
    'numbers: while numbers.len() < count {
        numbers.push(0)?;
    }
    Ok(())
}

// Writes the number of one line.
fn put_line(numbers: &mut Vec<u64>, conn: Conn, count: u64) -> Result<(), AllocError>
    ensures few { length numbers.old.items ≤ 2 ^ 32 → length numbers.new.items ≤ 2 ^ 32 }
    ensures put { OnOk result ((lines : List (ℕ × ℕ)) → HasCounts numbers.old.items lines → HasCounts numbers.new.items ((conn, count) ∷ lines)) }
{
    lengthen(numbers, conn as usize + 1)?;
    numbers[conn as usize] = count;
    Ok(())
}

// Writes the number of each line, from the last one on: where two lines are of one connection the first counts.
fn put_lines(numbers: &mut Vec<u64>, counts: &[(Conn, u64)]) -> Result<(), AllocError>
    requires few { length numbers.old.items ≤ 2 ^ 32 }
    requires none { HasCounts numbers.old.items [] }
    ensures few { length numbers.new.items ≤ 2 ^ 32 }
    ensures put { OnOk result (HasCounts numbers.new.items counts.now) }
{
    let mut rest = counts;
    'lines: while let [before @ .., line] = rest {
        put_line(numbers, line.0, line.1)?;
        rest = before;
    }
    Ok(())
}

impl Missing {
    /// What clients lack where nothing was sent yet, by the lines of a file of counts, each a connection and its count of bytes. It takes eight bytes for each
    /// connection up to the last one that has a line.
    ///
    /// # Errors
    ///
    /// `AllocError`: want of memory.
    pub fn of(alloc: Global, counts: &[(Conn, u64)]) -> Result<Missing, AllocError>
        ensures { IfOk result (IsMissing counts.now []) }
    {
        let mut numbers = Vec::new(alloc);
        put_lines(&mut numbers, counts)?;
        Ok(Missing { numbers, cursor: 0 })
    }

    /// How many bytes the client of a connection lacks.
    pub fn left(&self, conn: Conn) -> u64
        ensures { result ≡ slice_index self.now conn }
    {
        match self.numbers.get(conn as usize) {
            Some(number) => *number,
            None => 0,
        }
    }

    /// So many bytes were sent to a connection: its client lacks that many fewer, or none.
    pub fn sent(&mut self, conn: Conn, count: u64)
        ensures { (counts : List (ℕ × ℕ)) (sends : List Send) (send : Send) → send.conn ≡ conn → length send.bytes ≡ count → IsMissing counts sends self.old → IsMissing counts (sends ++ send ∷ []) self.new }
    {
        let index = conn as usize;
        if index < self.numbers.len() {
            self.numbers[index] = self.numbers[index].saturating_sub(count);
        }
    }

    /// The least connection whose client lacks bytes, if there is one.
    pub fn least(&mut self) -> Option<Conn>
        ensures same { self.new ≡ self.old }
        ensures least { IsLeast self.old result }
    {
        let at = first_from(self.numbers.as_slice(), self.cursor);
        self.cursor = at;
        if at < self.numbers.len() {
            Some(at as Conn)
        } else {
            None
        }
    }
}
