// The messages of one connection.
ghost use Rattle.std.specs.Prelude.{◌≡◌, ◌+◌, ◌≤◌, [], ◌++◌, true, length, IfOk, OnOk, OnErr, All};
ghost use Rattle.msg_frame.specs.Messages.{cut, one_message};
ghost use Rattle.msg_frame.specs.Feeding.{IsRest, Feeds, count_of};
ghost use Rattle.msg_frame.specs.Takes.{Takes, left_of};

use crate::build::push_joined;
use crate::ends::{End, end_of};
use crate::framing::{MAX_MESSAGE, NUMBER_BYTES};
use crate::{FrameRefusal, Framing};
use rx_base::Bytes;
use std::alloc::{AllocError, Global};
use std::marker::Model;

/// Cuts the pieces of one connection into messages. Between pieces it keeps the bytes of the message that isn't whole
/// yet, and nothing else.
#[derive(Debug, Drop)]
pub struct Framer {
    alloc: Global,
    framing: Framing,
    rest: Vec<u8>,
}

impl Model for Framer {
    ghost use Rattle.msg_frame.specs.Feeding.{Unfinished, IsRest};

    ghost Value = { Unfinished };

    ghost view = { λ f. record { framing = f.framing; rest = f.rest.items } };

    ghost invariant = { λ f. IsRest f.framing f.rest.items };
}

impl Framer {
    /// Cuts a stream from its start. Takes no memory.
    pub fn make(alloc: Global, framing: Framing) -> Framer
        ensures framing { result.framing ≡ framing }
        ensures rest { result.rest ≡ [] }
    {
        Framer {
            alloc,
            framing,
            rest: Vec::new(alloc),
        }
    }

    /// How the stream is cut.
    pub fn framing(&self) -> Framing
        ensures { result ≡ self.now.framing }
    {
        self.framing
    }

    /// How many messages the piece would make whole; `None` exactly where [`Framer::feed`] would answer `TooLong`.
    /// Takes no memory.
    pub fn completes(&self, piece: &[u8]) -> Option<usize>
        ensures { result ≡ count_of (cut self.now.framing self.now.rest piece.now) }
    {
        let mut count = 0;
        let mut rest = self.rest.as_slice();
        let mut bytes = piece;
        'messages: loop {
            match end_of(self.framing, rest, bytes) {
                End::Refused => return None,
                End::Missing => return Some(count),
                End::Within(n) => {
                    let (_, behind) = bytes.split_at(n);
                    count += 1;
                    rest = &[];
                    bytes = behind;
                    continue 'messages;
                }
            }
        }
    }

    /// Whether the piece is one message, with nothing before it and nothing behind it. It is a quick way to what
    /// [`Framer::feed`] gives, by one look at the piece: `false` says nothing.
    pub fn is_message(&self, piece: &[u8]) -> bool
        ensures alone { result ≡ true → self.now.rest ≡ [] }
        ensures whole { result ≡ true → cut self.now.framing [] piece.now ≡ one_message piece.now }
    {
        if self.rest.is_empty() {
            return is_one(self.framing, piece);
        }
        false
    }

    /// The messages that the piece makes whole, in their order. A piece of which a message is refused gives none. After an
    /// `Err` the framer is as it was.
    pub fn feed(&mut self, piece: &[u8]) -> Result<Vec<Bytes>, FrameRefusal>
        ensures fed { Feeds self.old piece.now self.new result }
        ensures short { IfOk result (λ messages. All (λ message. length message ≤ MAX_MESSAGE) messages.items) }
        ensures rest { length self.new.rest ≤ MAX_MESSAGE + NUMBER_BYTES }
    {
        let Some(count) = self.completes(piece) else {
            return Err(FrameRefusal::TooLong);
        };
        let mut messages = Vec::with_capacity(self.alloc, count)?;
        let left = take_messages(self.alloc, self.framing, &self.rest, piece, &mut messages)?;
        keep_left(self.alloc, &mut self.rest, &messages, left)?;
        Ok(messages)
    }
}

// Whether the first bytes of a stream are one message, all of them and as they are.
fn is_one(framing: Framing, bytes: &[u8]) -> bool
    ensures { result ≡ true → cut framing [] bytes.now ≡ one_message bytes.now }
{
    let skipped = framing.skipped();
    if let End::Within(n) = end_of(framing, &[], bytes) {
        if skipped == 0 && n == bytes.len() {
            return true;
        }
    }
    false
}

// Puts the messages that a piece makes whole behind a rest into an empty vector, and gives the bytes that are left.
fn take_messages<'p>(
    alloc: Global,
    framing: Framing,
    old: &[u8],
    piece: &'p [u8],
    messages: &mut Vec<Bytes>,
) -> Result<&'p [u8], FrameRefusal>
    requires rest { IsRest framing old.now }
    requires empty { messages.old.items ≡ [] }
    ensures { Takes (cut framing old.now piece.now) messages.new.items old.now result }
{
    let mut rest = old;
    let mut bytes = piece;
    'messages: loop {
        match end_of(framing, rest, bytes) {
            End::Refused => return Err(FrameRefusal::TooLong),
            End::Missing => return Ok(bytes),
            End::Within(n) => {
                let (front, behind) = bytes.split_at(n);
                push_joined(alloc, messages, framing.skipped(), rest, front)?;
                rest = &[];
                bytes = behind;
                continue 'messages;
            }
        }
    }
}

// Keeps the bytes that are left behind messages of a piece: behind the old rest where there is no message, else alone.
fn keep_left(
    alloc: Global,
    rest: &mut Vec<u8>,
    messages: &[Bytes],
    left: &[u8],
) -> Result<(), AllocError>
    ensures kept { OnOk result (rest.new.items ≡ left_of messages.now rest.old.items left.now) }
    ensures same { OnErr result (rest.new.items ≡ rest.old.items) }
{
    if messages.is_empty() {
        return rest.extend_from_slice(left);
    }
    *rest = left.to_vec(alloc)?;
    Ok(())
}
