// The environments that a report tells, by counts of items.
ghost use Rattle.std.specs.Prelude.{◌≡◌, ℕ, ◌+◌, ◌<◌, ◌≤◌, ◌^◌, ◌↔◌, IsTrue, List, Some, None, nat_le};
ghost use Rattle.follow.specs.Terms.{last_or, Override, env_at};
ghost use Rattle.follow.specs.Plans.{AreWellPlaced, IsWellPlaced, adopted_try, first_count, plan_behind, plan_of};
ghost use Rattle.recovery.specs.Rings.{IsInForce};
ghost use Rattle.session_following.specs.Placed.{EndsAfter, IsFollowedBy};

use alloc_env::Env;
use session_notes::{Episode, Try};

// The trial that survived, if one did.
fn adopted(tries: &[Try]) -> Option<Try>
    ensures { result ≡ adopted_try tries.now }
{
    let mut rest = tries;
    'tries: while let [attempt, behind @ ..] = rest {
        if attempt.tried.survives() {
            return Some(*attempt);
        }
        rest = behind;
    }
    None
}

// Whether the environment of a trial from this checkpoint is in force at a count of items, or was before.
fn is_begun(checkpoint: u64, count: u64) -> bool
    ensures { result ≡ nat_le (first_count checkpoint) count }
{
    checkpoint == 0 || checkpoint < count
}

// Whether it is in force no longer at a count of items: so many items more were taken than at the failure.
fn is_over(point: u64, count: u64, keep: u32) -> bool
    ensures { result ≡ nat_le (point + keep) count }
{
    let kept = keep as u64;
    kept <= count && point <= count - kept
}

// The environment at a count of items behind one more episode, where it was this one without it.
fn env_behind(episode: &Episode, taken: u64, keep: u32, base: Env, env: Env) -> Env
    ensures { (plan : List Override) → env ≡ env_at base plan taken → result ≡ env_at base (plan_behind keep plan episode.now) taken }
{
    let Some(attempt) = adopted(episode.tries.as_slice()) else {
        return env;
    };
    if !is_begun(attempt.checkpoint, taken) {
        return env;
    }
    if is_over(episode.point, taken, keep) {
        return base;
    }
    attempt.env
}

/// The environment that a report tells at a count of items: that of its newest episode whose trial was in force from there on or before, until `keep` items
/// more were taken than at its failure; then the base. The episodes stand from the oldest to the newest.
pub fn env_planned(episodes: &[Episode], taken: u64, keep: u32, base: Env) -> Env
    ensures { result ≡ env_at base (plan_of keep episodes.now) taken }
{
    let mut env = base;
    let mut rest = episodes;
    'episodes: while let [episode, behind @ ..] = rest {
        env = env_behind(episode, taken, keep, base, env);
        rest = behind;
    }
    env
}

fn is_well_placed(episode: &Episode) -> bool
    ensures { IsTrue result ↔ IsWellPlaced episode.now }
{
    match adopted(episode.tries.as_slice()) {
        Some(attempt) => is_begun(attempt.checkpoint, episode.point),
        None => true,
    }
}

/// Whether of each episode the trial that survived is in force no later than at the failure. A report of a session is so.
pub fn are_well_placed(episodes: &[Episode]) -> bool
    ensures { IsTrue result ↔ AreWellPlaced episodes.now }
{
    let mut rest = episodes;
    'episodes: while let [episode, behind @ ..] = rest {
        if !is_well_placed(episode) {
            return false;
        }
        rest = behind;
    }
    true
}

/// The environment that is in force from a count of items on, behind the last failure of a report, and the count where it ends: `keep` items behind that
/// failure, or 0 without one; then the base is.
pub fn in_force(episodes: &[Episode], taken: u64, keep: u32, base: Env) -> (Env, u64)
    requires placed { AreWellPlaced episodes.now }
    requires behind { IsFollowedBy taken (last_or None episodes.now) }
    requires small { taken < 2 ^ 63 }
    ensures in_force { IsInForce base (plan_of keep episodes.now) taken result.0 result.1 }
    ensures until { EndsAfter keep (last_or None episodes.now) result.1 }
{
    let [.., last] = episodes else {
        return (base, 0);
    };
    match adopted(last.tries.as_slice()) {
        Some(attempt) => (attempt.env, last.point + keep as u64),
        None => (base, 0),
    }
}
