// A segment of a program.
use rx_base::Bytes;

/// A loadable segment (System V ABI, "Program Header"): `memsz` bytes from `vaddr` on, the first of them given by the
/// file and the others 0. Flags: 1 execute, 2 write, 4 read.
#[derive(Debug, Drop)]
pub struct Segment {
    pub vaddr: u32,
    pub flags: u32,
    pub memsz: u32,
    pub filled: Bytes,
}
