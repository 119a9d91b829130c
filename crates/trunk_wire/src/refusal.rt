// Where a link refused its input.
ghost use Rattle.std.specs.Prelude.{◌≡◌};
ghost use Rattle.trunk_wire.specs.Tellings.{refusal_in};

use links::{LinkEvent, LinkFault};

/// The kind of a refusal and its offset.
#[derive(Clone, Copy, Drop)]
pub struct Refusal {
    pub kind: u8,
    pub offset: u64,
}

/// The refusal in an answer, if it is one.
pub fn refusal_in(answer: &Result<LinkEvent, LinkFault>) -> Option<Refusal>
    ensures { result ≡ refusal_in answer.now }
{
    match answer {
        Err(LinkFault::Refused { kind, offset }) => Some(Refusal {
            kind: *kind,
            offset: *offset,
        }),
        _ => None,
    }
}
