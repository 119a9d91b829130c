// The registers of the machine.

/// The program counter and the 32 registers of RV32I. `x[0]` isn't read: register 0 is 0.
#[derive(Clone, Copy, Debug, PartialEq, Eq)]
pub struct Regs {
    pub pc: u32,
    pub x: [u32; 32],
}
