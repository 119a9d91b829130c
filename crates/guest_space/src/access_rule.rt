// A rule about accesses, beside the permissions of the areas.
ghost use Rattle.std.specs.Prelude.{◌≡◌, ◌≤◌, ℕ, Bool, true};
ghost use Rattle.block_book.specs.Heap.{Heap};

use block_book::Book;

/// What else has to hold of each access, by the blocks that stand in the heap.
pub trait AccessRule {
    /// What the rule says of so many bytes from an address on.
    ghost rule: { Self → Heap → ℕ → ℕ → Bool };

    /// Whether an access to so many bytes from an address on, at least one, keeps the rule.
    fn permits(&self, book: &Book, at: u32, len: u32) -> bool
        requires { 1 ≤ len }
        ensures { result ≡ rule self.now book.now at len };
}

/// The rule that every access keeps: the areas alone say what is refused.
#[derive(Clone, Copy, Debug, PartialEq, Eq)]
pub struct AllMapped;

impl AccessRule for AllMapped {
    ghost rule = { λ rule heap at len. true };

    #[inline(always)]
    fn permits(&self, _book: &Book, _at: u32, _len: u32) -> bool
        ensures { result ≡ true }
    {
        true
    }
}
