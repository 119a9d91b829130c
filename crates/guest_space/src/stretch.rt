// Addresses that may be touched without a walk over the spans.
ghost use Rattle.std.specs.Prelude.{ℕ, ◌+◌, ◌^◌, ◌≤◌, ◌<◌, List};
ghost use Rattle.std.specs.Bool.{OnTrue};
ghost use Rattle.guest_space.specs.Space.{Span};
ghost use Rattle.guest_space.specs.Stretches.{IsOpen, AreOpen};

/// Addresses from each of which on four bytes may be touched in one way: so many, from a start on.
#[derive(Clone, Copy, Debug, PartialEq, Eq)]
pub struct Stretch {
    pub start: u32,
    pub count: u32,
}

impl Stretch {
    /// The stretch of no address.
    #[inline(always)]
    pub fn none() -> Stretch
        ensures { (flag : ℕ) (spans : List Span) → IsOpen flag spans result }
    {
        Stretch { start: 0, count: 0 }
    }

    /// Whether an address is one of it.
    #[inline(always)]
    pub fn has(&self, at: u32) -> bool
        requires { self.now.start + self.now.count ≤ 2 ^ 32 }
        ensures { OnTrue result ((self.now.start ≤ at) × (at < self.now.start + self.now.count)) }
    {
        at.wrapping_sub(self.start) < self.count
    }
}

/// Where an instruction's word was last, and for each register where loads and stores with it as their base were: the next
/// ones mostly are there too.
#[derive(Clone, Copy)]
pub struct Stretches {
    pub words: Stretch,
    pub loads: [Stretch; 32],
    pub stores: [Stretch; 32],
}

impl Stretches {
    /// Stretches of no address.
    #[inline(always)]
    pub fn none() -> Stretches
        ensures { (spans : List Span) → AreOpen spans result }
    {
        Stretches {
            words: Stretch::none(),
            loads: [Stretch::none(); 32],
            stores: [Stretch::none(); 32],
        }
    }
}
