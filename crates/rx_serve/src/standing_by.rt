// The command `standby`: a recorded run is followed, its clients get what they miss, and it goes on with a record of its own.
ghost use Rattle.std.specs.Prelude.{◌≡◌, ◌⊎◌, ◌+◌, ◌≤◌, ◌<◌, ◌^◌, [], ◌∷◌};
ghost use Rattle.command_line.specs.Commands.{standby_shown};
ghost use Rattle.file_notes.specs.Calling.{CallsUpTo, starts_of};
ghost use Rattle.routes.specs.StandingBy.{IsNewTrunk};
ghost use Rattle.rx_base.specs.Faults.{HasCause, Rose};
ghost use Rattle.rx_io.specs.declared.file_calls.FileCall.TheVariants.{Added};
ghost use Rattle.run_history.specs.declared.answer.Answer.TheVariants as answer;
ghost use Rattle.schedule_file.specs.Records.{IsRecord};
ghost use Rattle.rx_base.specs.declared.item.TheConstants.{MAX_ITEMS};
ghost use Rattle.rx_serve.specs.Outside.{HasFaults, faults, outside};
ghost use Rattle.rx_serve.specs.StandbyFiles.{IsReady};
ghost use Rattle.rx_serve.specs.StandingBy.{CallsRecording, ClosesRecording, EndsRecording, StandbyEnds, StartsRecording, TakesOver};
ghost use Rattle.rx_serve.specs.Status.{status_of};

use crate::ending::End;
use crate::noting::{is_end, note_answer};
use crate::standby_files::{Takeover, load_takeover};
use command_line::StandbyCommand;
use file_notes::{add_to_file, start_file};
use routes::{catch_up_trunk, rest_lines, serve_on_trunk};
use run_history::Answer;
use rx_base::{IoFault, Steps};
use rx_io::{Files, Sink, Source};
use schedule_file::{Recorded, head_line};
use standby::Followed;
use std::alloc::Global;
use std::sync::ledger::Ledger;
use trunk_wire::TrunkLink;

// Starts the record that is written with its first line. Where memory runs out no call is made.
fn start_recording<F: Files>(
    alloc: Global,
    files: &mut F,
    standby: &StandbyCommand<'_>,
    recorded: &Recorded,
) -> Result<(), IoFault>
    requires { IsRecord recorded.now }
    ensures starts { StartsRecording (standby_shown standby.now) recorded.now (F.told files.old) (F.told files.new) result }
    ensures calls { CallsUpTo (F.calls files.old) (F.calls files.new) (starts_of standby.now.recording.now) result }
    ensures cause { HasCause (F.faults files.old) (F.faults files.new) result }
{
    let Ok(head) = head_line(alloc, recorded.window, recorded.frame) else {
        return Err(IoFault::Memory);
    };
    start_file(files, standby.recording, head.as_slice())
}

// Adds its other lines. Where memory runs out no call is made.
fn add_rest<F: Files>(
    alloc: Global,
    files: &mut F,
    standby: &StandbyCommand<'_>,
    followed: &Followed,
) -> Result<(), IoFault>
    requires steps { followed.now.steps < 2 ^ 63 }
    requires taken { followed.now.taken ≤ MAX_ITEMS }
    ensures adds { EndsRecording (standby_shown standby.now) followed.now.tail followed.now.steps followed.now.taken (F.told files.old) (F.told files.new) result }
    ensures calls { CallsUpTo (F.calls files.old) (F.calls files.new) (Added standby.now.recording.now ∷ []) result }
    ensures cause { HasCause (F.faults files.old) (F.faults files.new) result }
{
    let choices = followed.tail.as_slice();
    let Ok(rest) = rest_lines(alloc, choices, followed.steps, followed.taken) else {
        return Err(IoFault::Memory);
    };
    add_to_file(files, standby.recording, rest.as_slice())
}

// Adds them where a run came to this end, and answers how it ended then.
fn end_recording<F: Files>(
    alloc: Global,
    files: &mut F,
    standby: &StandbyCommand<'_>,
    followed: &Followed,
    ended: Answer,
) -> Answer
    requires steps { followed.now.steps < 2 ^ 63 }
    requires taken { followed.now.taken ≤ MAX_ITEMS }
    ensures closes { ClosesRecording (standby_shown standby.now) followed.now.tail followed.now.steps followed.now.taken (F.told files.old) (F.told files.new) ended result }
    ensures calls { CallsRecording (standby_shown standby.now) (F.calls files.old) (F.calls files.new) ended result }
    ensures later { F.faults files.old ≤ F.faults files.new }
    ensures file_fault { result ≡ answer.FileFault → (ended ≡ answer.FileFault) ⊎ Rose (F.faults files.old) (F.faults files.new) }
{
    if !is_end(ended) {
        return ended;
    }
    match add_rest(alloc, files, standby, followed) {
        Ok(()) => ended,
        Err(fault) => note_answer(fault),
    }
}

// Takes over a run over a new trunk.
fn take_over<F: Files, S: Source, K: Sink, L: Ledger>(
    alloc: Global,
    standby: &StandbyCommand<'_>,
    takeover: &Takeover,
    files: &mut F,
    link: &mut TrunkLink<S, K>,
    steps: &mut Steps<L>,
) -> End
    requires ready { IsReady takeover.now.image takeover.now.recorded takeover.now.counts }
    requires budget { (1 ≤ standby.now.budget) × (standby.now.budget ≤ 2 ^ 36) }
    requires new { IsNewTrunk S.told S.faults K.told K.faults link.old }
    ensures takes { TakesOver (standby_shown standby.now) takeover.now.image takeover.now.recorded takeover.now.counts (outside (F.told files.old) (F.calls files.old) (S.told link.old.source) (K.told link.old.sink) steps.old) (outside (F.told files.new) (F.calls files.new) (S.told link.new.source) (K.told link.new.sink) steps.new) result }
    ensures faults { HasFaults (faults (F.faults files.old) (S.faults link.old.source) (K.faults link.old.sink)) (faults (F.faults files.new) (S.faults link.new.source) (K.faults link.new.sink)) result.answer }
    ensures fixed { (S.fixed link.new.source ≡ S.fixed link.old.source) × (K.fixed link.new.sink ≡ K.fixed link.old.sink) }
    ensures status { result.status ≡ status_of result.answer }
    ensures counted_at_least { steps.old + result.steps ≤ steps.new }
{
    let image = &takeover.image;
    let recorded = &takeover.recorded;
    let mut follower = match catch_up_trunk(alloc, image, recorded, link, steps) {
        Ok(follower) => follower,
        Err(unfollowed) => return End::of_unfollowed(alloc, unfollowed),
    };
    if let Some(conn) = follower.short(&takeover.counts) {
        return End::without_session(alloc, Answer::Short { conn });
    }
    if let Err(fault) = start_recording(alloc, files, standby, recorded) {
        return End::without_session(alloc, note_answer(fault));
    }
    let ended = serve_on_trunk(&mut follower, &takeover.counts, standby.budget, link, steps);
    let followed = follower.into_end();
    let answer = end_recording(alloc, files, standby, &followed, ended);
    End::of_takeover(alloc, answer, followed)
}

// Takes over a run over the trunk of input and output.
fn take_over_trunk<F: Files, S: Source, K: Sink, L: Ledger>(
    alloc: Global,
    standby: &StandbyCommand<'_>,
    takeover: &Takeover,
    files: &mut F,
    input: &mut S,
    output: &mut K,
    steps: &mut Steps<L>,
) -> End
    requires ready { IsReady takeover.now.image takeover.now.recorded takeover.now.counts }
    requires budget { (1 ≤ standby.now.budget) × (standby.now.budget ≤ 2 ^ 36) }
    ensures takes { TakesOver (standby_shown standby.now) takeover.now.image takeover.now.recorded takeover.now.counts (outside (F.told files.old) (F.calls files.old) (S.told input.old) (K.told output.old) steps.old) (outside (F.told files.new) (F.calls files.new) (S.told input.new) (K.told output.new) steps.new) result }
    ensures faults { HasFaults (faults (F.faults files.old) (S.faults input.old) (K.faults output.old)) (faults (F.faults files.new) (S.faults input.new) (K.faults output.new)) result.answer }
    ensures status { result.status ≡ status_of result.answer }
    ensures counted_at_least { steps.old + result.steps ≤ steps.new }
{
    let mut link = TrunkLink::make(alloc, &mut *input, &mut *output);
    take_over(alloc, standby, takeover, files, &mut link, steps)
}

/// Loads a program, the record of a host that stopped, and how many bytes each client has. Follows the recorded run, starts a record of its own,
/// lets clients have what they miss, and serves on over the trunk of input and output. Until that record is started nothing is written anywhere.
pub(crate) fn stand_by<F: Files, S: Source, K: Sink, L: Ledger>(
    alloc: Global,
    standby: &StandbyCommand<'_>,
    files: &mut F,
    input: &mut S,
    output: &mut K,
    steps: &mut Steps<L>,
) -> End
    requires budget { (1 ≤ standby.now.budget) × (standby.now.budget ≤ 2 ^ 36) }
    ensures ends { StandbyEnds (standby_shown standby.now) (outside (F.told files.old) (F.calls files.old) (S.told input.old) (K.told output.old) steps.old) (outside (F.told files.new) (F.calls files.new) (S.told input.new) (K.told output.new) steps.new) result }
    ensures faults { HasFaults (faults (F.faults files.old) (S.faults input.old) (K.faults output.old)) (faults (F.faults files.new) (S.faults input.new) (K.faults output.new)) result.answer }
    ensures status { result.status ≡ status_of result.answer }
    ensures counted_at_least { steps.old + result.steps ≤ steps.new }
{
    let takeover = match load_takeover(alloc, files, standby) {
        Ok(takeover) => takeover,
        Err(answer) => return End::without_session(alloc, answer),
    };
    take_over_trunk(alloc, standby, &takeover, files, input, output, steps)
}
