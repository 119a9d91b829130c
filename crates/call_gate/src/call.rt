// A call, off the registers.
ghost use Rattle.std.specs.Prelude.{◌≡◌};
ghost use Rattle.call_gate.specs.Calls.{called};

use block_book::Ask;
use run_history::{Cause, Regs};

/// A call of a guest, with its arguments.
#[derive(Clone, Copy, Debug, PartialEq, Eq)]
pub enum Call {
    /// Takes the next item into a buffer.
    Recv { at: u32, len: u32 },
    /// Sends bytes to a connection.
    Send { conn: u32, at: u32, len: u32 },
    /// Asks for a block, by malloc, calloc or realloc.
    Allocate(Ask),
    /// Frees the block at an address.
    Free { at: u32 },
    /// Ends the program.
    Exit { code: u32 },
    /// Says that the program's own assertion failed.
    Assert { code: u32 },
}

/// The call that the registers make. `BadCall` where there is none of this number.
pub fn read_call(regs: &Regs) -> Result<Call, Cause>
    ensures { result ≡ called regs.now.x }
{
    match regs.x[17] {
        1 => Ok(Call::Recv {
            at: regs.x[10],
            len: regs.x[11],
        }),
        2 => Ok(Call::Send {
            conn: regs.x[10],
            at: regs.x[11],
            len: regs.x[12],
        }),
        3 => Ok(Call::Allocate(Ask::Malloc { size: regs.x[10] })),
        4 => Ok(Call::Free { at: regs.x[10] }),
        5 => Ok(Call::Exit { code: regs.x[10] }),
        6 => Ok(Call::Assert { code: regs.x[10] }),
        7 => Ok(Call::Allocate(Ask::Calloc {
            count: regs.x[10],
            size: regs.x[11],
        })),
        8 => Ok(Call::Allocate(Ask::Realloc {
            old: regs.x[10],
            size: regs.x[11],
        })),
        _ => Err(Cause::BadCall),
    }
}
