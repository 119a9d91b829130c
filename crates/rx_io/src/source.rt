// Where bytes come from.
ghost use Rattle.std.specs.Prelude.{◌≡◌, ◌+◌, ◌-◌, ◌^◌, ◌<◌, ◌≤◌, ℕ, length, Option, IfOk, IfSome};
ghost use Rattle.rx_base.specs.Outside.{Stream};
ghost use Rattle.rx_base.specs.Faults.{HasCause};
ghost use Rattle.rx_base.specs.Taking.{Takes};

use rx_base::IoFault;

/// A stream of bytes that is read from its front.
pub trait Source {
    /// The bytes taken so far and those that are left, if the source tells them.
    ghost told: { Self → Option Stream };

    /// How often a call has failed. It never falls.
    ghost faults: { Self → ℕ };

    /// What of it no call changes.
    ghost Fixed: { Type 0 };

    /// It stays as it is.
    ghost fixed: { Self → Fixed };

    /// Takes at most as many bytes as `buf` has, puts them at its front, and answers how many. 0 is the end: an `Ok`
    /// answer is 0 exactly where no byte is left. After an `Err` no byte was taken.
    fn take(&mut self, buf: &mut [u8]) -> Result<usize, IoFault>
        requires { 0 < length buf.old }
        ensures count { IfOk result (λ n. n ≤ length buf.old) }
        ensures bytes { Takes (told self.old) (told self.new) result buf.new }
        ensures fixed { fixed self.new ≡ fixed self.old }
        ensures cause { HasCause (faults self.old) (faults self.new) result };

    /// What is told is short enough to be counted.
    ghost countable: { (source : Self) → IfSome (told source) (λ stream. length stream.taken + length stream.left < 2 ^ 64 - 1) };
}
