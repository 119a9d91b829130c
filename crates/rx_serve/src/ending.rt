// How a command ended.
ghost use Rattle.std.specs.Prelude.{◌≡◌};
ghost use Rattle.rx_serve.specs.Status.{status_of};

use crate::noting::is_end;
use block_book::Choices;
use guest_space::AccessRule;
use replay::Difference;
use routes::Replayed;
use run_history::Answer;
use rx_engine::Left;
use standby::{Followed, Unfollowed};
use std::alloc::Global;

/// How a command ended: its answer, the status for the shell, and of a session's run how many answers of the allocator stand in
/// the record, those behind them, its instructions, and the items that it took. Without a session these are 0 and empty. Where a run
/// that is done again isn't the recorded one, it has what differs.
#[derive(Debug, Drop)]
pub struct End {
    pub answer: Answer,
    pub status: u8,
    pub recorded: u64,
    pub tail: Choices,
    pub steps: u64,
    pub taken: u64,
    pub difference: Option<Difference>,
}

// The status of an answer.
pub(crate) fn status_of_answer(answer: Answer) -> u8
    ensures { result ≡ status_of answer }
{
    match answer {
        Answer::Finished | Answer::Exited(0) => 0,
        Answer::Exited(_) => 1,
        Answer::BadWords => 2,
        Answer::ElfRefused(_)
        | Answer::AsmRefused { .. }
        | Answer::RecordRefused { .. }
        | Answer::ReportRefused { .. }
        | Answer::CountsRefused { .. }
        | Answer::Short { .. }
        | Answer::Mismatch { .. }
        | Answer::TooLarge => 3,
        Answer::InputRefused { .. } | Answer::MessageTooLong { .. } => 4,
        Answer::GaveUp { .. } => 5,
        Answer::LimitItems | Answer::LimitEvents => 6,
        Answer::ReadFault => 7,
        Answer::WriteFault => 8,
        Answer::FileFault => 9,
        Answer::Memory => 10,
    }
}

impl End {
    ghost use Rattle.rx_serve.specs.Ended.{HasNoSession};
    ghost use Rattle.rx_serve.specs.StandingBy.{TellsChoices};

    /// The end of a command without a session, or before it began.
    pub(crate) fn without_session(alloc: Global, answer: Answer) -> End
        ensures answer { result.answer ≡ answer }
        ensures status { result.status ≡ status_of answer }
        ensures nothing { HasNoSession result }
        ensures differs { result.difference ≡ None }
    {
        End {
            answer,
            status: status_of_answer(answer),
            recorded: 0,
            tail: Choices::from_vec(Vec::new(alloc)),
            steps: 0,
            taken: 0,
            difference: None,
        }
    }

    /// The end of a command that did a recorded run again.
    pub(crate) fn of_replay(alloc: Global, replayed: Replayed) -> End
        ensures answer { result.answer ≡ replayed.answer }
        ensures status { result.status ≡ status_of replayed.answer }
        ensures nothing { HasNoSession result }
        ensures differs { result.difference ≡ replayed.difference }
    {
        let mut end = End::without_session(alloc, replayed.answer);
        end.difference = replayed.difference;
        end
    }

    /// The end of a takeover whose recorded run wasn't followed to its end.
    pub(crate) fn of_unfollowed(alloc: Global, unfollowed: Unfollowed) -> End
        ensures answer { result.answer ≡ unfollowed.answer }
        ensures status { result.status ≡ status_of unfollowed.answer }
        ensures nothing { HasNoSession result }
        ensures differs { result.difference ≡ unfollowed.difference }
    {
        let mut end = End::without_session(alloc, unfollowed.answer);
        end.difference = unfollowed.difference;
        end
    }

    /// The end of a run that was taken over. At an end each answer of the allocator stands in the record that was written, else none.
    pub(crate) fn of_takeover(alloc: Global, answer: Answer, followed: Followed) -> End
        ensures answer { result.answer ≡ answer }
        ensures status { result.status ≡ status_of answer }
        ensures told { TellsChoices followed.tail result }
        ensures steps { result.steps ≡ followed.steps }
        ensures taken { result.taken ≡ followed.taken }
        ensures differs { result.difference ≡ None }
    {
        let mut end = End::without_session(alloc, answer);
        end.steps = followed.steps;
        end.taken = followed.taken;
        if is_end(answer) {
            end.recorded = followed.tail.as_slice().len() as u64;
        } else {
            end.tail = followed.tail;
        }
        end
    }

    /// The end of a session.
    pub(crate) fn of_session<R: AccessRule + Drop>(answer: Answer, left: Left<R>) -> End
        ensures answer { result.answer ≡ answer }
        ensures status { result.status ≡ status_of answer }
        ensures recorded { result.recorded ≡ left.recorded }
        ensures tail { result.tail ≡ left.tail }
        ensures steps { result.steps ≡ left.steps }
        ensures taken { result.taken ≡ left.taken }
        ensures differs { result.difference ≡ None }
    {
        End {
            answer,
            status: status_of_answer(answer),
            recorded: left.recorded,
            tail: left.tail,
            steps: left.steps,
            taken: left.taken,
            difference: None,
        }
    }
}
