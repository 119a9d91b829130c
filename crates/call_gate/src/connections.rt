// The connections of a guest.
ghost use Rattle.std.specs.Prelude.{◌≡◌, ◌<◌, Bool, false, true, List, length, slice_get, slice_set, unwrap_or, IfOk, IsTrue};
ghost use Rattle.run_history.specs.Machine.{no_connections};
ghost use Rattle.run_history.specs.Call.{connections_after};

use rx_base::Item;
use std::alloc::{AllocError, Global};
use std::marker::Model;

// How many words have a bit for each connection.
const WORDS: usize = 64;

/// The connections below 4096 that a guest may send to.
#[derive(Debug, Drop)]
pub struct ConnSet {
    // Connection c is bit c % 64 of word c / 64.
    words: Vec<u64>,
}

impl Model for ConnSet {
    ghost use Rattle.std.specs.Prelude.{◌≡◌, List, Bool, length};
    ghost use Rattle.call_gate.specs.Flags.{flags_of};

    ghost Value = { List Bool };

    ghost view = { λ c. flags_of c.words.items };

    ghost invariant = { λ c. length c.words.items ≡ 64 };
}

impl ConnSet {
    /// No connection.
    pub fn make(alloc: Global) -> Result<ConnSet, AllocError>
        ensures { IfOk result (λ connections. connections ≡ no_connections) }
    {
        Ok(ConnSet {
            words: vec![in alloc; 0; WORDS]?,
        })
    }

    /// Whether a connection may be sent to.
    pub fn has(&self, conn: u32) -> bool
        ensures value { result ≡ unwrap_or (slice_get self.now conn) false }
        ensures small { IsTrue result → conn < 4096 }
    {
        let word = conn as usize / 64;
        word < self.words.len() && (self.words[word] >> (conn % 64)) & 1 == 1
    }

    /// Adds a connection. One of 4096 or above changes nothing.
    pub fn add(&mut self, conn: u32)
        ensures { self.new ≡ slice_set self.old conn true }
    {
        self.set(conn, true);
    }

    /// Removes a connection. One of 4096 or above changes nothing.
    pub fn remove(&mut self, conn: u32)
        ensures { self.new ≡ slice_set self.old conn false }
    {
        self.set(conn, false);
    }

    /// The connections once an item was taken. An item of a connection of 4096 or above changes nothing.
    pub fn take(&mut self, item: &Item)
        ensures { self.new ≡ connections_after item.now self.old }
    {
        if item.kind == 1 {
            self.set(item.conn, true);
        } else if item.kind == 3 {
            self.set(item.conn, false);
        }
    }

    /// Makes this set what another one is. It takes no memory.
    pub fn copy_from(&mut self, other: &ConnSet)
        ensures { self.new ≡ other.now }
    {
        self.words.copy_from_slice(&other.words);
    }

    // Adds or removes a connection. One of 4096 or above changes nothing.
    fn set(&mut self, conn: u32, may: bool)
        ensures { self.new ≡ slice_set self.old conn may }
    {
        let word = conn as usize / 64;
        if word < self.words.len() {
            let bit = 1u64 << (conn % 64);
            if may {
                self.words[word] |= bit;
            } else {
                self.words[word] &= !bit;
            }
        }
    }
}
