// What a session is asked for.
use alloc_env::Env;
use msg_frame::Framing;

/// What a session is asked for.
#[derive(Clone, Copy, Debug)]
pub struct Options {
    /// The bytes of the program's window.
    pub window: u32,
    /// How a connection's bytes are cut into messages.
    pub frame: Framing,
    /// How many items more have to be taken before a reply is passed: 0 to 1000.
    pub hold: u32,
    /// How many checkpoints stand at most: 1 to 16.
    pub ring: u32,
    /// How many items lie between two checkpoints at least: 1 to 64.
    pub every: u32,
    /// How many frames the pages of the program have, as a multiple of the pages of its window: 2 to 16.
    pub frames: u32,
    /// How many instructions may come between two items: 1 to 2^36.
    pub budget: u64,
    /// For how many items behind a failure the environment of the trial that is adopted stays in force: at least 1.
    pub keep: u32,
    /// The environment that is in force from the first instruction on, and again where none that was adopted is.
    pub base: Env,
    /// How many items a session may receive: 1 to 2^20.
    pub max_items: u64,
    /// How many events a session may have: 1 to 2^32.
    pub max_events: u64,
}
