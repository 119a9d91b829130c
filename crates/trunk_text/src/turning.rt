// How the turning of an input ended.
ghost use Rattle.std.specs.Prelude.{◌≡◌};
ghost use Rattle.trunk_text.specs.Streams.{read_ended, write_ended};

use crate::line::Flaw;
use rx_base::IoFault;

/// How the turning of an input ended.
#[derive(Clone, Copy, Debug, PartialEq, Eq)]
pub enum Ended {
    /// The whole input was turned.
    Finished,
    /// The line or frame that begins at this byte of the input, counted from 0, is refused.
    Refused { flaw: Flaw, offset: u64 },
    /// The source failed.
    ReadFault,
    /// The sink failed.
    WriteFault,
    /// The input has more bytes than 2^64 - 1.
    Limit,
    /// Memory ran out.
    Memory,
}

/// One more line or frame was turned, up to this byte of the input, or it is the end.
#[derive(Clone, Copy, Drop)]
pub(crate) enum Turn {
    More(u64),
    Ends(Ended),
}

/// The end by a fault of the source.
pub(crate) fn read_ended(fault: IoFault) -> Ended
    ensures { result ≡ read_ended fault }
{
    match fault {
        IoFault::Failed => Ended::ReadFault,
        IoFault::Memory => Ended::Memory,
    }
}

/// The end by a fault of the sink.
pub(crate) fn write_ended(fault: IoFault) -> Ended
    ensures { result ≡ write_ended fault }
{
    match fault {
        IoFault::Failed => Ended::WriteFault,
        IoFault::Memory => Ended::Memory,
    }
}
