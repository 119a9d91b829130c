// A free that C doesn't define.
/// The address that was to be freed isn't null, and isn't that of a block that may be freed.
#[derive(Clone, Copy, Debug, PartialEq, Eq)]
pub struct BadFree;
