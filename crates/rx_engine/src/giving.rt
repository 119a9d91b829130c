// What a session passes to its link.
ghost use Rattle.guest_image.specs.declared.image.Image.{Image};
ghost use Rattle.session_history.specs.Lawful.{Rules};
ghost use Rattle.session_history.specs.Giving.{IsReady, IsClosing};
ghost use Rattle.std.specs.Prelude.{◌≡◌};
ghost use Rattle.session_state.specs.Standing.{Since, Story, moment, sends, HasPassed};
ghost use Rattle.session_state.specs.Serving.{IsAnswerTo, IsToldBy, KeepsGiving, PassesStory, PassesDue, StandsPassing, StandsClosing};

use crate::Session;
use guest_space::AccessRule;
use link_gate::{PassFault, pass_rest, pass_until};
use links::Link;
use rx_base::Conn;
use session_history::{SessionBreak, Stop};

impl<R: AccessRule> Session<R> {
    /// Passes what was sent to open connections with so many items taken, or fewer.
    pub(crate) fn pass<K: Link>(&mut self, link: &mut K, until: u64) -> Result<(), Stop>
        requires { StandsPassing (K.seen link.old) self.old }
        ensures passes { (rules : Rules) (image : Image) (began : Since) (story : Story) → IsToldBy rules image began (K.seen link.old) story self.old → IsReady rules (sends story) (moment story) until self.old.replies
            → PassesStory rules image began (K.seen link.new) story until self.new result }
        ensures keeps { KeepsGiving (K.seen link.old) (K.seen link.new) self.old self.new result }
        ensures went { K.Went link.old link.new }
    {
        let stamp = self.held.log.received();
        if let Err(fault) = pass_until(&mut self.held.replies, link, until, stamp) {
            return Err(Stop::Breaks(answer_to(fault)));
        }
        Ok(())
    }

    /// Passes what is due with the items taken so far: what was sent with so many fewer taken as its hold is.
    pub(crate) fn pass_due<K: Link>(&mut self, link: &mut K) -> Result<(), Stop>
        requires { StandsPassing (K.seen link.old) self.old }
        ensures passes { (rules : Rules) (image : Image) (began : Since) (story : Story) → rules.hold ≡ self.old.hold → IsToldBy rules image began (K.seen link.old) story self.old → HasPassed rules story self.old.replies
            → PassesDue rules image began (K.seen link.new) story self.new result }
        ensures keeps { KeepsGiving (K.seen link.old) (K.seen link.new) self.old self.new result }
        ensures went { K.Went link.old link.new }
    {
        match self.taken.checked_sub(u64::from(self.hold)) {
            Some(until) => self.pass(link, until),
            None => Ok(()),
        }
    }

    /// Passes all that was sent to a connection whose close was just heard, unless it is gone, and marks it closed.
    pub(crate) fn close<K: Link>(&mut self, link: &mut K, conn: Conn) -> Result<(), Stop>
        requires { StandsClosing (K.seen link.old) conn self.old }
        ensures passes { (rules : Rules) (image : Image) (began : Since) (story : Story) → rules.hold ≡ self.old.hold → IsToldBy rules image began (K.seen link.old) story self.old → IsClosing rules (sends story) (moment story) conn self.old.replies
            → PassesDue rules image began (K.seen link.new) story self.new result }
        ensures keeps { KeepsGiving (K.seen link.old) (K.seen link.new) self.old self.new result }
        ensures went { K.Went link.old link.new }
    {
        let stamp = self.held.log.received();
        if let Err(fault) = pass_rest(&mut self.held.replies, link, conn, stamp) {
            return Err(Stop::Breaks(answer_to(fault)));
        }
        self.held.replies.closes(conn);
        self.pass_due(link)
    }
}

/// A fault of passing, as what breaks a session off.
pub fn answer_to(fault: PassFault) -> SessionBreak
    ensures { IsAnswerTo fault result }
{
    match fault {
        PassFault::WriteFault => SessionBreak::WriteFault,
        PassFault::Memory => SessionBreak::Memory,
    }
}
