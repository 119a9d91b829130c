// The connections of a link, and how their pieces are cut.
ghost use Rattle.std.specs.Prelude.{◌≡◌, ◌<◌, [], true, Some, None, IsTrue, IfOk, unwrap_or, slice_set};
ghost use Rattle.msg_frame.specs.Messages.{cut};
ghost use Rattle.msg_frame.specs.Feeding.{count_of};
ghost use Rattle.item_log.specs.Connections.{none_open, rest_of, is_open};
ghost use Rattle.item_log.specs.Watching.{FeedsOne, IsMessageOf};

use crate::kinds::CONNECTIONS;
use msg_frame::{FrameRefusal, Framer, Framing};
use rx_base::{Bytes, Conn};
use std::alloc::{AllocError, Global};
use std::marker::Model;

/// A framer for each connection that is open.
#[derive(Debug, Drop)]
pub struct Connections {
    alloc: Global,
    framing: Framing,
    framers: Vec<Option<Framer>>,
}

impl Model for Connections {
    ghost use Rattle.item_log.specs.Watched.{Watched, rests_of, AreFramers};

    ghost Value = { Watched };

    ghost view = { λ c. record { framing = c.framing; rests = rests_of c.framers.items } };

    ghost invariant = { λ c. AreFramers c.framing c.framers.items };
}

impl Connections {
    /// None is open.
    pub fn make(alloc: Global, framing: Framing) -> Result<Connections, AllocError>
        ensures framing { IfOk result (λ connections. connections.framing ≡ framing) }
        ensures rests { IfOk result (λ connections. connections.rests ≡ none_open) }
    {
        let mut framers = Vec::with_capacity(alloc, CONNECTIONS)?;
        for _i in 0..CONNECTIONS {
            framers.push(None)?;
        }
        Ok(Connections {
            alloc,
            framing,
            framers,
        })
    }

    /// Whether a connection is open.
    pub fn is_open(&self, conn: Conn) -> bool
        ensures { result ≡ is_open self.now.rests conn }
    {
        let place = conn as usize;
        place < CONNECTIONS && self.framers[place].is_some()
    }

    /// A connection opens.
    pub fn open(&mut self, conn: Conn)
        requires { conn < CONNECTIONS }
        ensures { self.new ≡ record self.old { rests = slice_set self.old.rests conn (Some []) } }
    {
        self.framers[conn as usize] = Some(Framer::make(self.alloc, self.framing));
    }

    /// A connection closes, and its rest is dropped.
    pub fn close(&mut self, conn: Conn)
        requires { IsTrue (is_open self.old.rests conn) }
        ensures { self.new ≡ record self.old { rests = slice_set self.old.rests conn None } }
    {
        self.framers[conn as usize] = None;
    }

    /// How many messages a piece of a connection makes whole; `None` where one is too long.
    pub fn completes(&self, conn: Conn, piece: &[u8]) -> Option<usize>
        requires { IsTrue (is_open self.now.rests conn) }
        ensures { result ≡ count_of (cut self.now.framing (unwrap_or (rest_of self.now.rests conn) []) piece.now) }
    {
        match &self.framers[conn as usize] {
            Some(framer) => framer.completes(piece),
            None => unreachable!(),
        }
    }

    /// Whether a piece of a connection is one message, with nothing before it and nothing behind it. It is a quick way to what
    /// `feed` gives: `false` says nothing.
    pub fn is_message(&self, conn: Conn, piece: &[u8]) -> bool
        requires { IsTrue (is_open self.now.rests conn) }
        ensures { result ≡ true → IsMessageOf self.now.framing self.now.rests conn piece.now }
    {
        match &self.framers[conn as usize] {
            Some(framer) => framer.is_message(piece),
            None => unreachable!(),
        }
    }

    /// The messages that a piece of a connection makes whole.
    pub fn feed(&mut self, conn: Conn, piece: &[u8]) -> Result<Vec<Bytes>, FrameRefusal>
        requires { IsTrue (is_open self.old.rests conn) }
        ensures { FeedsOne self.old conn piece.now self.new result }
    {
        match &mut self.framers[conn as usize] {
            Some(framer) => framer.feed(piece),
            None => unreachable!(),
        }
    }
}
