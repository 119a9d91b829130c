//! Laws of two hosts, each as the contract of a function that does nothing.
ghost use Rattle.two_hosts.specs.Laws.{AllAreOne, BothArePassed, HostsAreOne, ItemsGoOn, ThirdTakesOver};

/// What clients had of the first host, and what the second one gave them, is what the second one's account counts as passed.
pub fn both_are_passed()
    ensures { BothArePassed }
{}

/// It is a prefix of what one run emits, and all of it where all is given.
pub fn hosts_are_one()
    ensures { HostsAreOne }
{}

/// The same holds of what any number of hosts in a row gave.
pub fn all_are_one()
    ensures { AllAreOne }
{}

/// The second host's items are those of the events that it followed, and those behind them.
pub fn items_go_on()
    ensures { ItemsGoOn }
{}

/// A third host takes over from the second one as that did from the first.
pub fn third_takes_over()
    ensures { ThirdTakesOver }
{}
