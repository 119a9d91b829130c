// Laws of the answers, each the contract of a function that does nothing.
ghost use Rattle.alloc_env.specs.Laws.{AskServes, FreeFollows};

/// Each answer to an ask is allowed by C, and the heap after it is one with that block live, and the one that it replaces not.
pub fn ask_serves()
    ensures { AskServes }
{}

/// The heap after a free is one in which the block isn't live.
pub fn free_follows()
    ensures { FreeFollows }
{}
