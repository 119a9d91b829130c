// Lists of what was noted.
ghost use Rattle.std.specs.Prelude.{◌≡◌, ◌∷◌, [], false, IfOk};
ghost use Rattle.rx_base.specs.Planned.{FailsBy};
ghost use Rattle.session_notes.specs.Noting.{with_noted};

use crate::{Episode, Tries};
use block_book::Choice;
use rx_base::IoFault;
use std::alloc::{AllocError, Global};

/// Puts copies of choices at a list's end, or none where memory ran out.
pub fn keep_choices(kept: &mut Vec<Choice>, list: &[Choice]) -> Result<(), IoFault>
    ensures answer { FailsBy false result }
    ensures kept { kept.new.items ≡ with_noted kept.old.items list.now result }
{
    match kept.extend_from_slice(list) {
        Ok(()) => Ok(()),
        Err(_) => Err(IoFault::Memory),
    }
}

/// A copy of an episode.
pub fn copy_episode(alloc: Global, e: &Episode) -> Result<Episode, AllocError>
    ensures { IfOk result (λ copy. copy ≡ e.now) }
{
    let tries = e.tries.as_slice().to_vec(alloc)?;
    Ok(Episode {
        point: e.point,
        cause: e.cause,
        pc: e.pc,
        tries: Tries::from_vec(tries),
    })
}

/// Puts a copy of an episode at a list's end, or none where memory ran out.
pub fn keep_episode(alloc: Global, kept: &mut Vec<Episode>, e: &Episode) -> Result<(), IoFault>
    ensures answer { FailsBy false result }
    ensures kept { kept.new.items ≡ with_noted kept.old.items (e.now ∷ []) result }
{
    let Ok(copy) = copy_episode(alloc, e) else {
        return Err(IoFault::Memory);
    };
    match kept.push(copy) {
        Ok(()) => Ok(()),
        Err(_) => Err(IoFault::Memory),
    }
}
