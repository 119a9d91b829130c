// Where a program asks of its heap, and what it freed there.
use crate::block::Block;

/// Where a program stands that asks for a block or frees one.
#[derive(Clone, Copy, Debug, PartialEq, Eq)]
pub struct Site {
    /// The address of the instruction that asks.
    pub pc: u32,
    /// What register x1 has: by the calling convention the address that the function returns to (RISC-V ELF psABI, "Integer Register Convention").
    pub caller: u32,
    /// How many items the program has taken.
    pub taken: u64,
}

/// A block that was freed, as it stood until then, and where it was freed.
#[derive(Clone, Copy, Debug, PartialEq, Eq)]
pub struct Freed {
    pub block: Block,
    pub by: Site,
}
