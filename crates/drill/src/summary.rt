// The summary of a drill.
ghost use Rattle.std.specs.Prelude.{◌≡◌, IfOk};
ghost use Rattle.drill.specs.Summary.{summary_text, end_status, WritesAll};
ghost use Rattle.rx_base.specs.Faults.{HasCause};

use run_history::Answer;
use rx_base::{Bytes, IoFault};
use rx_io::Sink;
use std::alloc::{AllocError, Global};

/// What a drill tells of its session.
#[derive(Clone, Copy, Debug)]
pub struct Summary {
    /// The items that were taken.
    pub items: u64,
    /// The failures, each with what was tried behind it.
    pub episodes: u64,
    /// The payload bytes that were passed to all connections together.
    pub bytes: u128,
    /// The status of the session's end.
    pub status: u8,
}

/// The status of an end of a session; none where it was broken off, by a fault or want of memory.
pub fn end_status(end: Answer) -> Option<u8>
    ensures { result ≡ end_status end }
{
    match end {
        Answer::Finished => Some(0),
        Answer::Exited(0) => Some(0),
        Answer::Exited(_) => Some(1),
        Answer::InputRefused { .. } | Answer::MessageTooLong { .. } => Some(4),
        Answer::GaveUp { .. } => Some(5),
        Answer::LimitItems | Answer::LimitEvents => Some(6),
        _ => None,
    }
}

/// The five lines.
#[tactic(auto, unfolding(crate::specs::Summary::summary_text))]
pub fn summary_text(
    alloc: Global,
    seed: u32,
    count: u32,
    summary: &Summary,
) -> Result<Bytes, AllocError>
    ensures { IfOk result (λ bytes. bytes ≡ summary_text seed count summary.now) }
{
    let items = summary.items;
    let episodes = summary.episodes;
    let passed = summary.bytes;
    let status = summary.status;
    let text = format!(in alloc;
        "drill {seed} {count}\nitems {items}\nepisodes {episodes}\nbytes {passed}\nstatus {status}\n"
    )?;
    Ok(Bytes::from_vec(text.into_bytes()))
}

/// Gives all bytes to a sink.
pub fn write_all<K: Sink>(output: &mut K, bytes: &[u8]) -> Result<(), IoFault>
    ensures bytes { WritesAll (K.told output.old) (K.told output.new) bytes.now result }
    ensures fixed { K.fixed output.new ≡ K.fixed output.old }
    ensures cause { HasCause (K.faults output.old) (K.faults output.new) result }
{
    let mut rest = bytes;
    'give: while !rest.is_empty() {
        let count = match output.give(rest) {
            Ok(count) => count,
            Err(fault) => return Err(fault),
        };
        rest = rest.split_at(count).1;
    }
    Ok(())
}
