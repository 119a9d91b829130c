// A source in memory that never fails.
ghost use Rattle.std.specs.Prelude.{◌≡◌, ℕ, ◌-◌, ◌^◌, ◌<◌, ◌≤◌, length, Option, Some, IfOk, Ok, Err, take, drop, min};
ghost use Rattle.rx_base.specs.Faults.{HasCause};
ghost use Rattle.rx_base.specs.Taking.{Takes};

use crate::Source;
use rx_base::IoFault;

/// A list of bytes as a source. It never answers `Failed`.
#[derive(Drop)]
pub struct TameSource {
    bytes: Vec<u8>,
    at: usize,
    most: usize,
    ghost inside: { at ≤ length bytes.items },
    ghost goes_on: { 1 ≤ most },
    ghost countable: { length bytes.items < 2 ^ 64 - 1 },
}

impl TameSource {
    ghost use Rattle.rx_io.specs.Sources.{tame_stream, tame_most};
    ghost use Rattle.rx_base.specs.Outside.{fresh, piece_len};

    /// Gives these bytes, at most `most` of them per call.
    pub fn make(bytes: Vec<u8>, most: usize) -> TameSource
        requires { 1 ≤ most }
        ensures stream { tame_stream result ≡ fresh bytes.items }
        ensures most { tame_most result ≡ most }
    {
        let _countable = bytes.as_slice().len() + 1;
        TameSource { bytes, at: 0, most }
    }

    /// What the next call gives into a buffer of this length.
    pub(crate) fn next_piece(&self, room: usize) -> &[u8]
        ensures bytes { result.now ≡ take (piece_len (tame_most self.now) room (tame_stream self.now)) (tame_stream self.now).left }
        ensures count { length result.now ≡ piece_len (tame_most self.now) room (tame_stream self.now) }
    {
        let (_, rest) = self.bytes.as_slice().split_at(self.at);
        let (piece, _) = rest.split_at(self.most.min(room).min(rest.len()));
        piece
    }
}

impl Source for TameSource {
    ghost use Rattle.rx_io.specs.Sources.{tame_stream, tame_most};
    ghost use Rattle.rx_base.specs.Outside.{piece_len};
    ghost use Rattle.rx_io.specs.Laws.{tame_countable};

    ghost told = { λ s. Some (tame_stream s) };

    ghost faults = { λ s. 0 };

    ghost Fixed = { Unit {0} };

    ghost fixed = { λ _. tt };

    ghost countable = { tame_countable };

    /// It gives as much as `most`, the buffer and the bytes left allow.
    fn take(&mut self, buf: &mut [u8]) -> Result<usize, IoFault>
        requires { 0 < length buf.old }
        ensures count { IfOk result (λ n. n ≤ length buf.old) }
        ensures bytes { Takes (Some (tame_stream self.old)) (Some (tame_stream self.new)) result buf.new }
        ensures cause { HasCause 0 0 result }
        ensures answer { result ≡ Ok (piece_len (tame_most self.old) (length buf.old) (tame_stream self.old)) }
        ensures most { tame_most self.new ≡ tame_most self.old }
    {
        let (_, rest) = self.bytes.as_slice().split_at(self.at);
        let count = self.most.min(buf.len()).min(rest.len());
        let (piece, _) = rest.split_at(count);
        buf[..count].copy_from_slice(piece);
        self.at += count;
        Ok(count)
    }
}
