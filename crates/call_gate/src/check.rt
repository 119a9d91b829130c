// The bytes that a call looks at.
ghost use Rattle.std.specs.Prelude.{◌≡◌, Some, if◌then◌else◌};
ghost use Rattle.guest_space.specs.Space.{flat};
ghost use Rattle.call_gate.specs.Checks.{checked, checked_buffer};

use crate::call::Call;
use crate::connections::ConnSet;
use block_book::Book;
use guest_space::{AccessRule, GuestSpace};
use run_history::Cause;

/// At most so many bytes are sent at once.
pub const MOST_SENT: u32 = 65535;

/// Whether the bytes that a call looks at may be touched. A recv's buffer has to be writable. The bytes of a send have to be
/// readable, unless it is answered by 2 (more than 65,535 bytes) or by 1 (no connection that may be sent to). Of at least one
/// byte the rule is asked too, after the areas. `BadAccess` exactly where they may not.
pub fn check_call<R: AccessRule>(
    call: &Call,
    space: &GuestSpace,
    book: &Book,
    rule: &R,
    connections: &ConnSet,
) -> Result<(), Cause>
    ensures { result ≡ checked (R.rule rule.now) book.now (flat space.now) connections.now call.now }
{
    match *call {
        Call::Recv { at, len } => check_buffer(true, at, len, space, book, rule),
        Call::Send { conn, at, len } => {
            if len > MOST_SENT {
                return Ok(());
            }
            if !connections.has(conn) {
                return Ok(());
            }
            check_buffer(false, at, len, space, book, rule)
        }
        _ => Ok(()),
    }
}

// Whether so many bytes from an address on may be written, or read.
fn check_buffer<R: AccessRule>(
    write: bool,
    at: u32,
    len: u32,
    space: &GuestSpace,
    book: &Book,
    rule: &R,
) -> Result<(), Cause>
    ensures { result ≡ checked_buffer (R.rule rule.now) book.now (flat space.now) (Some (record { flag = if write then 2 else 4; at = at; count = len })) }
{
    if !space.allows(at, len, write) {
        return Err(Cause::BadAccess);
    }
    if len == 0 {
        return Ok(());
    }
    if !rule.permits(book, at, len) {
        return Err(Cause::BadAccess);
    }
    Ok(())
}
