// An input that asks for a stop.
use rx_io::read_some;
use std::io::Read;
use std::time::Duration;

// How long the line is, and the buffer for a line of which no more is kept.
const LINE: &[u8] = b"stop";

/// An input that asks for a stop, by a line `stop` or its end, and for how long clients may stay then. Other lines ask for nothing.
#[derive(Drop)]
pub struct StopInput<I: Read + Drop> {
    reader: I,
    fd: i32,
    drain: Duration,
    line: [u8; 4],
    length: usize,
}

impl<I: Read + Drop> StopInput<I> {
    /// The input that is read by `reader` and has the descriptor `fd`. Clients may stay for so many seconds behind a stop.
    pub fn make(reader: I, fd: i32, drain: u64) -> StopInput<I> {
        StopInput {
            reader,
            fd,
            drain: Duration::from_secs(drain),
            line: [0; 4],
            length: 0,
        }
    }

    /// Its descriptor.
    pub fn fd(&self) -> i32 {
        self.fd
    }

    /// For how long clients may stay behind a stop.
    pub fn drain(&self) -> Duration {
        self.drain
    }

    // Takes a byte of a line, and says whether it ends one that asks for a stop.
    fn ends_line(&mut self, byte: u8) -> bool {
        if byte == b'\n' {
            let asks = self.length == LINE.len() && self.line.as_slice() == LINE;
            self.length = 0;
            return asks;
        }
        if let Some(place) = self.line.get_mut(self.length) {
            *place = byte;
        }
        self.length = self.length.saturating_add(1);
        false
    }

    /// Reads what is there, and says whether that asks for a stop. An input that can't be read has ended.
    pub fn asks(&mut self) -> bool {
        let mut buffer = [0u8; 64];
        let count = match read_some(&mut self.reader, &mut buffer) {
            Some(count) => count,
            None => 0,
        };
        if count == 0 {
            return true;
        }
        let (read, _) = buffer.split_at(count);
        for byte in read {
            if self.ends_line(*byte) {
                return true;
            }
        }
        false
    }
}
