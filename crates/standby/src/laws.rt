//! Laws of runs that follow a record, each as the contract of a function that does nothing.
ghost use Rattle.standby.specs.Laws.{AllIsHad, FollowedIsRun, FrontsAreHad};

/// A run that follows a record and is served on is one run of the program from its start.
pub fn followed_is_run()
    ensures { FollowedIsRun }
{}

/// Each client whose connection is open where a record ended has a front of what the run sends to it, by its count and what was given.
pub fn fronts_are_had()
    ensures { FrontsAreHad }
{}

/// Where all was given it has all of that, unless its connection was found gone.
pub fn all_is_had()
    ensures { AllIsHad }
{}
