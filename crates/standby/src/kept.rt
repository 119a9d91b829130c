// What a run sent while it was followed.
ghost use Rattle.std.specs.Prelude.{◌≡◌, ◌<◌, IfOk, length, nat_lt};
ghost use Rattle.standby.specs.Following.{kept_to};

use rx_base::{Bytes, Conn};
use std::alloc::{AllocError, Global};

/// Bytes that a run sent to a connection while it was followed. They weren't given.
#[derive(Debug, Drop)]
pub struct Kept {
    pub conn: Conn,
    pub bytes: Bytes,
}

/// All bytes to a connection among those that were kept, joined.
pub(crate) fn joined(alloc: Global, kept: &[Kept], conn: Conn) -> Result<Vec<u8>, AllocError>
    ensures { IfOk result (λ all. all.items ≡ kept_to conn kept.now) }
{
    let mut all = Vec::new(alloc);
    for one in kept {
        if one.conn == conn {
            all.extend_from_slice(one.bytes.as_slice())?;
        }
    }
    Ok(all)
}

/// Whether a count passes the bytes to a connection among those that were kept. It takes no memory.
pub(crate) fn passes(kept: &[Kept], conn: Conn, count: u64) -> bool
    ensures { result ≡ nat_lt (length (kept_to conn kept.now)) count }
{
    if count == 0 {
        return false;
    }
    let mut left = count;
    for one in kept {
        if one.conn == conn {
            left = left.saturating_sub(one.bytes.as_slice().len() as u64);
        }
    }
    left > 0
}
