// Files by their names.
ghost use Rattle.std.specs.Prelude.{◌≡◌, ℕ, ◌≤◌, List, Option, IfOk, vec_len};
ghost use Rattle.rx_io.specs.Calling.{Calls, calls_of, loads_of};
ghost use Rattle.rx_io.specs.declared.file_calls.FileCall.{FileCall};
ghost use Rattle.rx_io.specs.declared.file_calls.FileCall.TheVariants.{Loaded, Started, Added};
ghost use Rattle.rx_base.specs.Faults.{HasCause, HasLoadCause};
ghost use Rattle.rx_io.specs.Named.{Contents, Loads, Starts, Adds};

use rx_base::{IoFault, LoadFault};
use std::alloc::Global;

/// Named files, each a list of bytes.
pub trait Files {
    /// The bytes of each name that is there, if the files tell them.
    ghost told: { Self → Option Contents };

    /// All calls by their names, in order, if the files tell them.
    ghost calls: { Self → Option (List FileCall) };

    /// How often a call has failed. It never falls.
    ghost faults: { Self → ℕ };

    /// What of it no call changes.
    ghost Fixed: { Type 0 };

    /// It stays as it is.
    ghost fixed: { Self → Fixed };

    /// All bytes of a file. `TooLarge` exactly where it has more than `limit`; a missing name is `Failed`.
    fn load(&mut self, alloc: Global, name: &str, limit: u64) -> Result<Vec<u8>, LoadFault>
        ensures within { IfOk result (λ bytes. vec_len bytes ≤ limit) }
        ensures bytes { Loads (told self.old) name.now limit result }
        ensures same { told self.new ≡ told self.old }
        ensures call { Calls (calls self.old) (calls self.new) (loads_of (Loaded name.now) result) }
        ensures fixed { fixed self.new ≡ fixed self.old }
        ensures cause { HasLoadCause (faults self.old) (faults self.new) result };

    /// Makes the file, empty. After an `Err` it is as before, or empty.
    fn start(&mut self, name: &str) -> Result<(), IoFault>
        ensures started { Starts (told self.old) (told self.new) name.now result }
        ensures call { Calls (calls self.old) (calls self.new) (calls_of (Started name.now) result) }
        ensures fixed { fixed self.new ≡ fixed self.old }
        ensures cause { HasCause (faults self.old) (faults self.new) result };

    /// Adds bytes at a file's end; a name that isn't there counts as an empty file. After an `Err` some first ones of
    /// the bytes may stand there.
    fn add(&mut self, name: &str, bytes: &[u8]) -> Result<(), IoFault>
        ensures added { Adds (told self.old) (told self.new) name.now bytes.now result }
        ensures call { Calls (calls self.old) (calls self.new) (calls_of (Added name.now) result) }
        ensures fixed { fixed self.new ≡ fixed self.old }
        ensures cause { HasCause (faults self.old) (faults self.new) result };
}
