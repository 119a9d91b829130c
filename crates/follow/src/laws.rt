//! Laws of a run that is followed, each as the contract of a function that does nothing.
ghost use Rattle.follow.specs.Laws.{PlanIsTold, PlanOfReport, GivenUpAddsNothing, RangesAreExact, RangesFall, ServedWider, AsksWider, OneRun};
ghost use Rattle.follow.specs.HeldLaws.{HeldIsFront, HeldIsInTime, HeldIsInOrder, HeldIsFixed, HeldIsPassed, PassedIsSent, StampsAreSafe};
ghost use Rattle.follow.specs.ReachLaws.{ReachesInTime, FollowsBefore, NoWaiting, StuckHasReached, AnswersAgree, FinishAgrees, HeldAtRelease, EpisodesArePlaced};
ghost use Rattle.follow.specs.FollowLaws.{StaysReached, OneRelease, FollowedIsSound, FollowedIsPast};

/// Behind recoveries the plan of the survivor is told by their episodes, from the plan that it had before them.
pub fn plan_is_told()
    ensures { PlanIsTold }
{}

/// So the plan of a session's survivor is that of its report.
pub fn plan_of_report()
    ensures { PlanOfReport }
{}

/// An episode that no trial survived adds nothing to it.
pub fn given_up_adds_nothing()
    ensures { GivenUpAddsNothing }
{}

/// As ranges it says the same at each count of items.
pub fn ranges_are_exact()
    ensures { RangesAreExact }
{}

/// Each range begins before those in front of it.
pub fn ranges_fall()
    ensures { RangesFall }
{}

/// A run is there under wider limits too.
pub fn served_wider()
    ensures { ServedWider }
{}

/// There it asks for the same items.
pub fn asks_wider()
    ensures { AsksWider }
{}

/// Of two hosts' runs under one plan one is the other with more instructions.
pub fn one_run()
    ensures { OneRun }
{}

/// What clients hold is the first bytes of what was sent to each.
pub fn held_is_front()
    ensures { HeldIsFront }
{}

/// The run that sent it emits it, and in time.
pub fn held_is_in_time()
    ensures { HeldIsInTime }
{}

/// It stands in the order of the numbers of items at which it was sent.
pub fn held_is_in_order()
    ensures { HeldIsInOrder }
{}

/// It stays as it is, once a run has sent as much.
pub fn held_is_fixed()
    ensures { HeldIsFixed }
{}

/// It is what was passed.
pub fn held_is_passed()
    ensures { HeldIsPassed }
{}

/// What was passed with so many items received was sent with no more items taken.
pub fn passed_is_sent()
    ensures { PassedIsSent }
{}

/// So the numbers of items at which it was sent refuse all trials that those at which it was passed refuse.
pub fn stamps_are_safe()
    ensures { StampsAreSafe }
{}

/// From where the first host stopped its run has reached what was handed over.
pub fn reaches_in_time()
    ensures { ReachesInTime }
{}

/// A run that follows has, or stands before that.
pub fn follows_before()
    ensures { FollowsBefore }
{}

/// So it asks for no item but those that the first host's run had taken.
pub fn no_waiting()
    ensures { NoWaiting }
{}

/// Where it can't go on, on all items that the first host heard, it has reached what was handed over.
pub fn stuck_has_reached()
    ensures { StuckHasReached }
{}

/// It has the answers of the record.
pub fn answers_agree()
    ensures { AnswersAgree }
{}

/// It stands where the record's last line says.
pub fn finish_agrees()
    ensures { FinishAgrees }
{}

/// Where it has reached what was handed over, what clients hold is what the first host passed to them.
pub fn held_at_release()
    ensures { HeldAtRelease }
{}

/// Of each episode that was handed over the trial that survived is in force no later than at its failure.
pub fn episodes_are_placed()
    ensures { EpisodesArePlaced }
{}

/// A run that has reached it has reached it wherever it stands later.
pub fn stays_reached()
    ensures { StaysReached }
{}

/// With the events of one trunk a second host is released at one place.
pub fn one_release()
    ensures { OneRelease }
{}

/// What was followed is sound, as a part before the session behind it.
pub fn followed_is_sound()
    ensures { FollowedIsSound }
{}

/// And that session begins past the last episode that was handed over.
pub fn followed_is_past()
    ensures { FollowedIsPast }
{}
