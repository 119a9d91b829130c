// Messages, made of a rest and the bytes behind it.
ghost use Rattle.std.specs.Prelude.{◌≡◌, ◌+◌, ◌≤◌, ◌∷◌, [], ◌++◌, drop, length, IfOk, OnOk};

use rx_base::Bytes;
use std::alloc::{AllocError, Global};

// The bytes of a rest and of a front, without the first ones.
fn joined(alloc: Global, skipped: usize, rest: &[u8], front: &[u8]) -> Result<Bytes, AllocError>
    requires { skipped ≤ length rest.now + length front.now }
    ensures { IfOk result (λ bytes. bytes ≡ drop skipped (rest.now ++ front.now)) }
{
    let of_rest = skipped.min(rest.len());
    let (_, rest) = rest.split_at(of_rest);
    let (_, front) = front.split_at(skipped - of_rest);
    let mut bytes = Vec::with_capacity(alloc, rest.len() + front.len())?;
    bytes.extend_from_slice(rest)?;
    bytes.extend_from_slice(front)?;
    Ok(Bytes::from_vec(bytes))
}

/// Puts the bytes of a rest and of a front, without the first ones, behind the messages.
pub fn push_joined(
    alloc: Global,
    messages: &mut Vec<Bytes>,
    skipped: usize,
    rest: &[u8],
    front: &[u8],
) -> Result<(), AllocError>
    requires { skipped ≤ length rest.now + length front.now }
    ensures { OnOk result (messages.new.items ≡ messages.old.items ++ drop skipped (rest.now ++ front.now) ∷ []) }
{
    let message = joined(alloc, skipped, rest, front)?;
    messages.push(message)?;
    Ok(())
}
