// Bytes that are read ahead of what is asked for, and given as they are asked for.
ghost use Rattle.std.specs.Prelude.{◌≤◌};

use crate::attempts::read_some;
use std::io::Read;

/// How many bytes are read ahead at most.
pub const AHEAD: usize = 4096;

/// A buffer of which the bytes from `start` to `end` were read and not yet given.
#[derive(Drop)]
pub struct ReadAhead {
    bytes: [u8; AHEAD],
    start: usize,
    end: usize,
    ghost ordered: { start ≤ end },
    ghost within: { end ≤ 4096 },
}

impl ReadAhead {
    ghost use Rattle.std.specs.Prelude.{◌≡◌, ◌<◌, ◌==◌, min, true, false, [], ◌++◌, length, take, None, IfSome};
    ghost use Rattle.std.specs.Io.KnownBytes.{Consumes, IsAtEnd, Keeps};
    ghost use Rattle.rx_io.specs.Ahead.{ahead, to_come};

    /// Nothing was read yet.
    pub fn new() -> ReadAhead
        ensures { ahead result ≡ [] }
    {
        ReadAhead {
            bytes: [0; AHEAD],
            start: 0,
            end: 0,
        }
    }

    fn is_empty(&self) -> bool
        ensures { result ≡ (length (ahead self.now) == 0) }
    {
        self.start == self.end
    }

    // One read of as many bytes as there is room for, where none is there. It answers whether that went well.
    fn fill<R: Read>(&mut self, reader: &mut R) -> bool
        ensures bytes { result ≡ true → Consumes (R.remaining reader.old) (R.remaining reader.new) (ahead self.new) }
        ensures end { result ≡ true → length (ahead self.new) ≡ 0 → IsAtEnd (R.remaining reader.new) }
        ensures kept { result ≡ false → Keeps (R.remaining reader.old) (R.remaining reader.new) }
        ensures nothing { result ≡ false → ahead self.new ≡ [] }
    {
        self.start = 0;
        self.end = 0;
        match read_some(reader, &mut self.bytes) {
            Some(count) => {
                self.end = count;
                true
            }
            None => false,
        }
    }

    // Gives as many bytes as there are and as the buffer has, and answers how many.
    fn give(&mut self, buf: &mut [u8]) -> usize
        ensures count { result ≡ min (length (ahead self.old)) (length buf.old) }
        ensures bytes { ahead self.old ≡ take result buf.new ++ ahead self.new }
    {
        let all = &self.bytes[..];
        let left = &all[self.start..self.end];
        let count = left.len().min(buf.len());
        buf[..count].copy_from_slice(&left[..count]);
        self.start += count;
        count
    }

    /// Gives the next bytes, or none where a read failed, which took no byte. It reads only where none are there, and no more than `AHEAD` bytes
    /// that weren't asked for.
    pub fn read<R: Read>(&mut self, reader: &mut R, buf: &mut [u8]) -> Option<usize>
        ensures count { IfSome result (λ n. n ≤ length buf.old) }
        ensures bytes { IfSome result (λ n. Consumes (to_come self.old (R.remaining reader.old)) (to_come self.new (R.remaining reader.new)) (take n buf.new)) }
        ensures end { IfSome result (λ n. n ≡ 0 → 0 < length buf.old → IsAtEnd (to_come self.new (R.remaining reader.new))) }
        ensures kept { result ≡ None → Keeps (to_come self.old (R.remaining reader.old)) (to_come self.new (R.remaining reader.new)) }
    {
        if self.is_empty() {
            // What is as long as the buffer goes straight to where it is wanted.
            if buf.len() >= AHEAD {
                return read_some(reader, buf);
            }
            if !self.fill(reader) {
                return None;
            }
        }
        Some(self.give(buf))
    }
}
