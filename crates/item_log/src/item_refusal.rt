// Why an event wasn't logged.
ghost use Rattle.std.specs.Prelude.{◌≡◌};
ghost use Rattle.item_log.specs.declared.item_refusal.ItemRefusal.TheVariants.{Memory};

use rx_base::Conn;
use std::alloc::AllocError;

/// Why an event wasn't logged.
#[derive(Clone, Copy, Debug, PartialEq, Eq)]
pub enum ItemRefusal {
    /// A message of a piece of this connection is too long.
    TooLong(Conn),
    /// More items would be received than may be.
    Items,
    /// Memory ran out.
    Memory,
}

impl From<AllocError> for ItemRefusal {
    ghost from_gives = { λ _ e. e ≡ Memory };

    fn from(_error: AllocError) -> ItemRefusal {
        ItemRefusal::Memory
    }
}
