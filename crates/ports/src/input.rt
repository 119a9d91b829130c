// The prepared bytes of a connection.
ghost use Rattle.std.specs.Prelude.{◌≡◌, ◌≤◌, length, take};

/// A list of bytes, of which some first ones were taken.
#[derive(Drop)]
pub struct Input {
    bytes: Vec<u8>,
    at: usize,
    ghost inside: { at ≤ length bytes.items },
}

impl Input {
    ghost use Rattle.ports.specs.Inputs.{input_stream};
    ghost use Rattle.ports.specs.Streams.{after_taken};
    ghost use Rattle.rx_base.specs.Outside.{fresh, piece_len};

    /// None of these bytes was taken.
    pub fn make(bytes: Vec<u8>) -> Input
        ensures { input_stream result ≡ fresh bytes.items }
    {
        Input { bytes, at: 0 }
    }

    /// What a call takes that takes at most `most` bytes, into a buffer of this length.
    pub fn next_piece(&self, most: usize, room: usize) -> &[u8]
        ensures bytes { result.now ≡ take (piece_len most room (input_stream self.now)) (input_stream self.now).left }
        ensures count { length result.now ≡ piece_len most room (input_stream self.now) }
    {
        let (_, rest) = self.bytes.as_slice().split_at(self.at);
        let (piece, _) = rest.split_at(most.min(room).min(rest.len()));
        piece
    }

    /// So many bytes were taken.
    pub fn advance(&mut self, count: usize)
        requires { count ≤ length (input_stream self.old).left }
        ensures { input_stream self.new ≡ after_taken count (input_stream self.old) }
    {
        self.at += count;
    }
}
