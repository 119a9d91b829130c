// Where bytes go.
ghost use Rattle.std.specs.Prelude.{◌≡◌, ◌-◌, ◌^◌, ◌<◌, ◌≤◌, ℕ, List, length, Option, IfOk, IfSome};
ghost use Rattle.std.specs.Io.KnownBytes.{WriteAppends};
ghost use Rattle.rx_base.specs.Faults.{HasCause};

use rx_base::IoFault;

/// A stream of bytes that is written at its end.
pub trait Sink {
    /// All bytes that were taken, if the sink tells them.
    ghost told: { Self → Option (List ℕ) };

    /// How often a call has failed. It never falls.
    ghost faults: { Self → ℕ };

    /// What of it no call changes.
    ghost Fixed: { Type 0 };

    /// It stays as it is.
    ghost fixed: { Self → Fixed };

    /// Gives bytes, of which the sink takes the first ones, at least one, and answers how many. After an `Err` it took none.
    fn give(&mut self, bytes: &[u8]) -> Result<usize, IoFault>
        requires { 0 < length bytes.now }
        ensures some { IfOk result (λ n. 0 < n) }
        ensures count { IfOk result (λ n. n ≤ length bytes.now) }
        ensures bytes { WriteAppends (told self.old) (told self.new) result bytes.now }
        ensures fixed { fixed self.new ≡ fixed self.old }
        ensures cause { HasCause (faults self.old) (faults self.new) result };

    /// What is told is short enough to be counted.
    ghost countable: { (sink : Self) → IfSome (told sink) (λ bytes. length bytes < 2 ^ 64 - 1) };
}
