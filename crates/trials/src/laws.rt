//! Laws of trials, each as the contract of a function that does nothing.
ghost use Rattle.trials.specs.Laws.{AsksUnderAll, TrialServes, TrialComes, CheckpointUnharmed, ChainedAt, ChainedDrop, ChainedAdopt, OneResult, NoneSurvives, OneWalk, WalkAdopts, WalkGivesUp};
ghost use Rattle.trials.specs.EpisodeLaws.{OneRecovery, RecoveryAdopts, RecoveryGivesUp, PointsRise, RecoveredFirst, RecoveredOn, RecoveredThen};
ghost use Rattle.trials.specs.Shortest.{RecoveriesAreShortest, FailureIsShortest};
ghost use Rattle.trials.specs.Failing.{FailuresHaveAccounts};

/// Whether a run asks for an item depends on no plan.
pub fn asks_under_all()
    ensures { AsksUnderAll }
{}

/// A run in a trial's environment is one under the trial's plan.
pub fn trial_serves()
    ensures { TrialServes }
{}

/// So is its result.
pub fn trial_comes()
    ensures { TrialComes }
{}

/// A run that covers what was passed, and in time, is unharmed at each of its checkpoints.
pub fn checkpoint_unharmed()
    ensures { CheckpointUnharmed }
{}

/// A run goes on from each checkpoint of its ring.
pub fn chained_at()
    ensures { ChainedAt }
{}

/// The oldest checkpoint may be dropped.
pub fn chained_drop()
    ensures { ChainedDrop }
{}

/// A trial that is adopted has the checkpoints up to its own.
pub fn chained_adopt()
    ensures { ChainedAdopt }
{}

/// What came of a trial is one, and is found in one place.
pub fn one_result()
    ensures { OneResult }
{}

/// Where no trial of a whole table survives, none can.
pub fn none_survives()
    ensures { NoneSurvives }
{}

/// A walk over a table has one list of trials.
pub fn one_walk()
    ensures { OneWalk }
{}

/// Where a trial of a walk survives, it is the last one.
pub fn walk_adopts()
    ensures { WalkAdopts }
{}

/// Where none does, the trials are the whole table.
pub fn walk_gives_up()
    ensures { WalkGivesUp }
{}

/// A recovery is fixed by the survivor that failed and its checkpoints.
pub fn one_recovery()
    ensures { OneRecovery }
{}

/// Where a trial survives, the session can go on as it.
pub fn recovery_adopts()
    ensures { RecoveryAdopts }
{}

/// Where none does, no run that can be tried survives.
pub fn recovery_gives_up()
    ensures { RecoveryGivesUp }
{}

/// The next failure behind an adopted trial has taken more items.
pub fn points_rise()
    ensures { PointsRise }
{}

/// The first survivor stands at the start.
pub fn recovered_first()
    ensures { RecoveredFirst }
{}

/// A survivor may go on, to any run.
pub fn recovered_on()
    ensures { RecoveredOn }
{}

/// Behind a recovery the trial that survived stands in its place.
pub fn recovered_then()
    ensures { RecoveredThen }
{}

/// At each recovery of a session the journal was the shortest that brings its survivor to its failure.
pub fn recoveries_are_shortest()
    ensures { RecoveriesAreShortest }
{}

/// So it is where the last survivor failed.
pub fn failure_is_shortest()
    ensures { FailureIsShortest }
{}

/// At each recovery of a session there was an account of the journal then, by the survivor that failed.
pub fn failures_have_accounts()
    ensures { FailuresHaveAccounts }
{}
