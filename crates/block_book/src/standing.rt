// What stands at an address.
/// What stands at an address: a block that begins there, with its size in bytes, or nothing.
#[derive(Clone, Copy, Debug, PartialEq, Eq)]
pub enum Standing {
    Nothing,
    Live(u32),
    Delayed(u32),
}
