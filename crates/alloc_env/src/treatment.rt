// What an environment does to blocks.
#[derive(Clone, Copy, Debug)]
pub struct Treatment {
    // The bytes of padding on each side of a block.
    pub side: u32,
    // Whether the bytes of a new block are to be set to 0.
    pub zeroes: bool,
    // Whether a block goes to the middle of the heap or above, where it fits there.
    pub isolates: bool,
    // Whether a freed block is delayed.
    pub delays: bool,
}
