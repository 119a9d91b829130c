// How a command ends.
use rx_base::Conn;

/// Why a guest program fails: the sensor that fires at an instruction. The failing instruction changes nothing.
#[derive(Clone, Copy, Debug, PartialEq, Eq)]
pub enum Cause {
    /// A byte that a fetch, a load, a store or a call's buffer touches is in no area that permits it.
    BadAccess,
    /// A jump or a taken branch has a target that is no multiple of 4.
    BadJump,
    /// The fetched word is in no row of the instruction table.
    BadInstruction,
    /// The guest's own assertion failed, with its code.
    AssertFailed(u32),
    /// The budget of instructions since the last received item is used up.
    Hang,
    /// The guest freed what wasn't its own.
    BadFree,
    /// A guest call has no such number.
    BadCall,
}

/// How a command ended.
#[derive(Clone, Copy, Debug, PartialEq, Eq)]
pub enum Answer {
    /// The program asked for an item, and the input was at its end; of other commands, all was done.
    Finished,
    /// The program ended itself with this code.
    Exited(u32),
    /// The words of the command line aren't those of a command.
    BadWords,
    /// The program file is refused, by the number of the refusal.
    ElfRefused(u8),
    /// The assembly text is refused at this line.
    AsmRefused { kind: u8, line: u32 },
    /// The record file has no reading from this line on.
    RecordRefused { line: u32 },
    /// The report file has no reading from this line on.
    ReportRefused { line: u32 },
    /// The file of counts has no reading from this line on.
    CountsRefused { line: u32 },
    /// The client of this connection has more bytes than the run that was followed sent it.
    Short { conn: Conn },
    /// The run isn't the one that a record or a report tells of, from so many steps on.
    Mismatch { step: u64 },
    /// A loaded file has more bytes than its limit.
    TooLarge,
    /// The input has no frame at this offset, by the number of the refusal.
    InputRefused { kind: u8, offset: u64 },
    /// A message of this connection is too long.
    MessageTooLong { conn: Conn },
    /// The program failed with so many items taken, and nothing helped.
    GaveUp { point: u64, cause: Cause },
    /// More items came than a session may receive.
    LimitItems,
    /// More events came than a session may have.
    LimitEvents,
    /// A read of the input failed.
    ReadFault,
    /// A write to the output failed.
    WriteFault,
    /// A call on a file failed.
    FileFault,
    /// Memory ran out.
    Memory,
}
