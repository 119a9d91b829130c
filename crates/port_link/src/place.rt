// Where a link over a port stands.
ghost use Rattle.std.specs.Prelude.{◌≡◌, ℕ, length};
ghost use Rattle.port_link.specs.Stages.{first_broken, is_broken, is_present, stage_behind};
ghost use Rattle.port_link.specs.StageTables.{stage_in};

use links::{Given, LinkFault};
use rx_base::Conn;

/// What was answered of a connection.
#[derive(Clone, Copy, Debug, Drop)]
pub enum Stage {
    /// Nothing.
    Unopened,
    /// Its opening, and not its close.
    Open,
    /// The end of its input was found, or a take of it failed: its close was answered.
    Ended,
    /// A give to it failed: its close is answered next.
    Broken,
    /// A give to it failed: it was closed, and its close was answered last.
    Dropped,
    /// Its close was answered before, and it was closed.
    Closed,
}

/// The connection whose close was answered last, if one was since an event was asked for: it is to be closed, or it was closed
/// before, since a give to it had failed.
#[derive(Clone, Copy, Debug, Drop)]
pub enum Closing {
    Nothing,
    Due(Conn),
    Made(Conn),
}

/// How many connections a link has, at most 4096, how many of them are open at the same time at most, and whether it may be stopped.
#[derive(Clone, Copy, Debug, Drop)]
pub struct PortLimits {
    pub conns: Conn,
    pub at_once: u16,
    pub stops: bool,
}

/// The stage of each connection; how many were accepted, and how many of these were closed; how often `Ends` was answered; and whether
/// a stop was asked for.
#[derive(Debug, Drop)]
pub struct Place {
    pub stages: [Stage; 4096],
    pub accepted: Conn,
    pub closed: Conn,
    pub closing: Closing,
    pub ends: u64,
    pub stopped: bool,
}

/// Nothing was answered of any connection.
pub fn fresh_stages() -> [Stage; 4096]
    ensures each { (conn : ℕ) → stage_in result conn ≡ Stage.Unopened }
    ensures room { length result ≡ 4096 }
{
    [Stage::Unopened; 4096]
}

/// Whether a connection is open at the port.
pub fn is_present(stage: Stage) -> bool
    ensures { result ≡ is_present stage }
{
    match stage {
        Stage::Unopened => false,
        Stage::Open => true,
        Stage::Ended => true,
        Stage::Broken => true,
        Stage::Dropped => false,
        Stage::Closed => false,
    }
}

// Whether a give to a connection failed, and its close wasn't answered.
fn is_broken(stage: Stage) -> bool
    ensures { result ≡ is_broken stage }
{
    match stage {
        Stage::Unopened => false,
        Stage::Open => false,
        Stage::Ended => false,
        Stage::Broken => true,
        Stage::Dropped => false,
        Stage::Closed => false,
    }
}

/// The first connection to which a give failed, and whose close wasn't answered.
pub fn first_broken(stages: &[Stage]) -> Option<usize>
    ensures { result ≡ first_broken stages.now }
{
    stages.iter().position(|stage| is_broken(*stage))
}

/// The stage of a connection behind a give: one that was open is broken where the give found it gone.
pub fn stage_behind(stage: Stage, answer: &Result<Given, LinkFault>) -> Stage
    ensures { result ≡ stage_behind stage answer.now }
{
    match answer {
        Ok(Given::Gone(_)) => match stage {
            Stage::Unopened => Stage::Unopened,
            Stage::Open => Stage::Broken,
            Stage::Ended => Stage::Ended,
            Stage::Broken => Stage::Broken,
            Stage::Dropped => Stage::Dropped,
            Stage::Closed => Stage::Closed,
        },
        _ => stage,
    }
}
