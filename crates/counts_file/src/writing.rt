// The lines of a text of counts.
ghost use Rattle.std.specs.Prelude.{◌<◌, ◌^◌};
ghost use Rattle.text_lines.specs.Written.{Writes};
ghost use Rattle.rx_base.specs.declared.item.TheConstants.{CONNECTIONS};
ghost use Rattle.counts_file.specs.Lines.{count_line};

use rx_base::{Bytes, CONNECTIONS, Conn};
use std::alloc::{AllocError, Global};

/// The line of a connection, with its line feed: `CONN COUNT`. Connections have to rise from line to line.
#[tactic(auto, unfolding(crate::specs::Lines::count_line))]
pub fn count_line(alloc: Global, conn: Conn, count: u64) -> Result<Bytes, AllocError>
    requires conn { conn < CONNECTIONS }
    requires count { count < 2 ^ 63 }
    ensures { Writes (count_line conn count) result }
{
    let text = format!(in alloc; "{conn} {count}\n")?;
    Ok(Bytes::from_vec(text.into_bytes()))
}
