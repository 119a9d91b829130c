// Where a session that follows stands: whether it has reached what was handed over, or why it never will.
ghost use Rattle.std.specs.Prelude.{◌≡◌, ◌↔◌, ℕ, ◌<◌, List, [], ◌∷◌, ◌++◌, length, slice_index_or, IsTrue, IfSome, None, MatchBool};
ghost use Rattle.session_history.specs.Terms.{Item, Limits, Path};
ghost use Rattle.follow.specs.Terms.{Choice, last_or};
ghost use Rattle.follow.specs.Plans.{plan_of};
ghost use Rattle.follow.specs.Handed.{Stand};
ghost use Rattle.session_following.specs.HandedOver.{handed_of};
ghost use Rattle.session_following.specs.Judging.{Agree, HasFiles, IsBehind, IsElsewhere, IsJudged, IsJudgedAt, IsOther, IsPastAs, IsThere};

use crate::handed_over::{HandedOver, Place};
use crate::missing::Missing;
use block_book::Choice;
use rx_base::Conn;
use session_notes::Episode;

/// How a run stands where it can be judged: at its request for an item, at its exit, or at a failure.
#[derive(Clone, Copy, Debug)]
pub enum StandKind {
    Request,
    Exit,
    Failure,
}

/// What is said of a run that follows.
#[derive(Clone, Copy, Debug)]
pub enum Judged {
    /// It hasn't reached what was handed over, and may yet.
    GoesOn,
    /// It has reached it.
    Reached,
    /// Record and report aren't of this program and these items.
    Unlike,
    /// The client of this connection has more than was sent to it.
    Short(Conn),
}

// Whether it is past the failure of the last episode, if there is one.
fn is_past(episodes: &[Episode], kind: StandKind, taken: u64) -> bool
    ensures { IsTrue result ↔ IfSome (last_or None episodes.now) (IsPastAs kind taken) }
{
    let [.., last] = episodes else {
        return true;
    };
    match kind {
        StandKind::Request => last.point <= taken,
        StandKind::Exit => true,
        StandKind::Failure => last.point < taken,
    }
}

// Whether it has as many instructions as the record's last line says, or more. Without such a line it has.
fn is_behind(finish: Option<Place>, steps: u64) -> bool
    ensures { IsTrue result ↔ IsBehind finish steps }
{
    match finish {
        Some(place) => place.steps <= steps,
        None => true,
    }
}

// Whether it stands where the record's last line says.
fn is_there(finish: Option<Place>, taken: u64, steps: u64) -> bool
    ensures { IsTrue result ↔ IsThere finish taken steps }
{
    match finish {
        Some(place) => place.steps == steps && place.taken == taken,
        None => false,
    }
}

// Whether it stands at or behind the record's last line, and not where that says.
fn is_elsewhere(finish: Option<Place>, taken: u64, steps: u64) -> bool
    ensures { IsTrue result ↔ IsElsewhere finish taken steps }
{
    match finish {
        Some(place) => place.steps < steps || (place.steps == steps && place.taken != taken),
        None => false,
    }
}

// Whether it has reached what record and report tell, where its answers are the record's so far.
fn has_files(handed: &HandedOver<'_>, kind: StandKind, taken: u64, steps: u64, chosen: u64) -> bool
    ensures { IsTrue result ↔ HasFiles handed.now kind taken steps chosen }
{
    if !is_past(handed.episodes, kind, taken) {
        return false;
    }
    if chosen < handed.choices.len() as u64 {
        return false;
    }
    is_behind(handed.finish, steps)
}

/// Judges a run that follows, where it stands: how it does, how many items it took, how many instructions and answers of the allocator it has, and whether it is stuck: it is so at its
/// exit, at a failure, and at its request for an item that no one will give. Its answers are those of the record, as far as both go.
pub fn judge(
    handed: &HandedOver<'_>,
    missing: &mut Missing,
    kind: StandKind,
    taken: u64,
    steps: u64,
    chosen: u64,
    stuck: bool,
) -> Judged
    ensures same { missing.new ≡ missing.old }
    ensures judged { (limits : Limits) (items : List Item) (path : Path) (stand : Stand limits (plan_of limits.keep handed.now.episodes.now) path) → IsJudgedAt limits items (handed_of handed.now) path stand missing.old kind taken steps chosen stuck → IsJudged limits items (handed_of handed.now) path stand stuck result }
{
    if !has_files(handed, kind, taken, steps, chosen) {
        if stuck {
            return Judged::Unlike;
        }
        if is_elsewhere(handed.finish, taken, steps) {
            return Judged::Unlike;
        }
        return Judged::GoesOn;
    }
    let Some(conn) = missing.least() else {
        return Judged::Reached;
    };
    if is_elsewhere(handed.finish, taken, steps) {
        return Judged::Unlike;
    }
    if stuck {
        return Judged::Short(conn);
    }
    if is_there(handed.finish, taken, steps) {
        return Judged::Short(conn);
    }
    Judged::GoesOn
}

// Whether an answer of the allocator is the record's one of this number.
fn is_told(told: &[Choice], index: usize, choice: Choice) -> bool
    requires { index < length told.now }
    ensures { IsTrue result ↔ (slice_index_or told.now index choice ≡ choice) }
{
    told[index] == choice
}

/// Whether one more answer of the allocator is that of the record, behind so many that are; or the record has no such one.
pub fn agrees(handed: &HandedOver<'_>, chosen: u64, choice: Choice) -> bool
    ensures { (choices : List Choice) → length choices ≡ chosen → Agree handed.now.choices.now choices → MatchBool result (Agree handed.now.choices.now (choices ++ choice ∷ [])) (IsOther handed.now.choices.now (choices ++ choice ∷ [])) }
{
    let index = chosen as usize;
    if handed.choices.len() <= index {
        return true;
    }
    is_told(handed.choices, index, choice)
}
