// A report as a value, and why a text is none.
ghost use Rattle.std.specs.Prelude.{◌≡◌, List};
ghost use Rattle.session_notes.specs.declared.episode.Episode.{Episode};
ghost use Rattle.report_reading.specs.declared.reported.ReportRefusal.TheVariants.{Memory};

use run_history::Cause;
use run_report::Form;
use rx_base::Listed;
use session_notes::{Episode, Tries, Try};
use std::alloc::AllocError;

/// Episodes in their order.
pub type Episodes = Listed<Episode>;

/// What the last line of a report says: the session's status, how many items were taken, and how many instructions were
/// executed.
#[derive(Clone, Copy, Debug, PartialEq, Eq)]
pub struct ReportEnd {
    pub status: u8,
    pub taken: u64,
    pub steps: u64,
}

/// What a report says of a session: its form, the episodes of which a trial was adopted, an episode behind them of which none was,
/// if there is one, and the session's end, if it came to one.
///
/// A trial that ended itself stands in a report as one that asks for the next item, and is read as such.
#[derive(Debug, Drop)]
pub struct ReadReport {
    pub form: Form,
    pub adopted: Episodes,
    pub failed: Option<Episode>,
    pub end: Option<ReportEnd>,
}

/// Why a report wasn't read: its first line, counted from 1, that isn't in its place; or memory ran out.
#[derive(Clone, Copy, Debug, PartialEq, Eq)]
pub enum ReportRefusal {
    Refused { line: u64 },
    Memory,
}

impl From<AllocError> for ReportRefusal {
    ghost from_gives = { λ _ e. e ≡ Memory };

    fn from(_error: AllocError) -> ReportRefusal {
        ReportRefusal::Memory
    }
}

// An episode but for its trials.
#[derive(Clone, Copy)]
pub(crate) struct Failure {
    pub point: u64,
    pub cause: Cause,
    pub pc: u32,
}

impl Failure {
    ghost use Rattle.std.specs.Prelude.{◌≡◌};
    ghost use Rattle.report_reading.specs.Steps.{episode_with};

    // The episode with these trials.
    pub fn with(self, tries: Vec<Try>) -> Episode
        ensures { result ≡ episode_with self tries.items }
    {
        Episode {
            point: self.point,
            cause: self.cause,
            pc: self.pc,
            tries: Tries::from_vec(tries),
        }
    }
}
