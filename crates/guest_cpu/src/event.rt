// Why a run stops, and what an instruction comes to.

use block_book::{Ask, Choice};
use run_history::Cause;
use rx_base::{Bytes, Conn};

/// Why a run in an environment stopped.
#[derive(Debug, Drop)]
pub enum Event {
    /// It asks for an item: the recv isn't executed.
    Asks,
    /// It sent bytes to a connection.
    Emits(Conn, Bytes),
    /// It asked the allocator, which answered so.
    Chooses(Choice),
    /// It ended itself with a code.
    Exits(u32),
    /// It failed: the instruction isn't executed.
    Failed(Cause),
}

/// Why a run as recorded stopped.
#[derive(Debug, Drop)]
pub enum Question {
    /// It asks for an item: the recv isn't executed.
    Asks,
    /// It sent bytes to a connection.
    Emits(Conn, Bytes),
    /// It asks the allocator: the call isn't executed.
    Wants(Ask),
    /// It ended itself with a code.
    Exits(u32),
    /// It failed: the instruction isn't executed.
    Failed(Cause),
    /// It has done as many instructions as it was to do.
    Reached,
}

/// What an instruction comes to that needs an answer from outside, sends or ends the run, before the allocator is asked.
#[derive(Debug, Drop)]
pub enum Met {
    /// It asks for an item: the recv isn't executed.
    Asks,
    /// It sent bytes to a connection.
    Emits(Conn, Bytes),
    /// It asks the allocator for a block: the call isn't executed.
    Allocates(Ask),
    /// It frees the block at an address: the call isn't executed.
    Frees(u32),
    /// It ended itself with a code.
    Exits(u32),
    /// It failed: the instruction isn't executed.
    Failed(Cause),
}
