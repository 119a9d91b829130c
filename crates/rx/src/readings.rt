// What is most likely wrong with a program that failed, for a person.
use telling::{Fault, Helps, fault_by_trials};

/// What is most likely wrong, and what says so: what helps, or where the access goes.
pub fn meaning(fault: Fault, helps: Option<Helps>) -> &'static str {
    match (fault, fault_by_trials(helps)) {
        (Fault::PastEnd, Fault::PastEnd) => {
            "padding helps and delay doesn't, so most likely a write went past the end of its block"
        }
        (Fault::PastEnd, Fault::Unknown) => {
            "it went past the end of a block; nothing helps, so the access itself is the fault"
        }
        (Fault::PastEnd, _) => "it went past the end of a block, as its access shows",
        (Fault::Freed, Fault::Freed) => {
            "delay helps and zeros don't, so most likely memory was used after it was freed, or freed twice"
        }
        (Fault::Freed, Fault::Unknown) => {
            "it used memory that was freed, or freed it twice; nothing helps, so the access itself is the fault"
        }
        (Fault::Freed, _) =>
            "it used memory that was freed, or freed it twice, as its address shows",
        (Fault::Unset, _) => "zeros help, so most likely memory was read before it was written",
        (Fault::Placed, _) => {
            "blocks help only where they are placed otherwise, which doesn't say what is wrong"
        }
        (Fault::Unknown, _) => {
            "nothing helps, so it is no fault of the heap that an environment changes, or one from before the oldest checkpoint"
        }
    }
}
