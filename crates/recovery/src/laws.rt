//! Laws of what a survivor's run fixes and of what was followed before it, each as the contract of a function that does nothing.
ghost use Rattle.recovery.specs.Laws.{NoneFollowed, OneNumber, OneRing, SameNumbers};

/// How many pages a survivor's run wrote from a checkpoint to a request is one number.
pub fn one_number()
    ensures { OneNumber }
{}

/// Which checkpoints stand behind its requests is fixed by those before and by the run.
pub fn one_ring()
    ensures { OneRing }
{}

/// So are the numbers of written pages before each of them, where a checkpoint stands at each.
pub fn same_numbers()
    ensures { SameNumbers }
{}

/// Where nothing came before a session no request was followed.
pub fn none_followed()
    ensures { NoneFollowed }
{}
