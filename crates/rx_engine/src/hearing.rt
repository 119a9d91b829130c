// What a session hears of its link.
ghost use Rattle.std.specs.Prelude.{◌<◌, IfOk};
ghost use Rattle.guest_image.specs.declared.image.Image.{Image};
ghost use Rattle.item_log.specs.Log.{received};
ghost use Rattle.session_state.specs.Standing.{Since, IsWaitingFor};
ghost use Rattle.session_state.specs.Serving.{IsStopAt, KeepsHearing, CountsEvent, StandsHearing, StandsListening, WaitsBy, rules_by};

use crate::Session;
use guest_space::AccessRule;
use link_gate::{HearFault, Heard, hear};
use links::Link;
use session_history::{SessionBreak, SessionEnd, Stop};

// What an event that wasn't heard means for a session.
pub(crate) fn stop_at(fault: HearFault) -> Stop
    ensures { IsStopAt fault result }
{
    match fault {
        HearFault::Refused { kind, offset } => Stop::Ends(SessionEnd::InputRefused {
            kind,
            offset,
        }),
        HearFault::LimitEvents => Stop::Ends(SessionEnd::LimitEvents),
        HearFault::TooLong(conn) => Stop::Ends(SessionEnd::MessageTooLong { conn }),
        HearFault::LimitItems => Stop::Ends(SessionEnd::LimitItems),
        HearFault::ReadFault => Stop::Breaks(SessionBreak::ReadFault),
        HearFault::Memory => Stop::Breaks(SessionBreak::Memory),
    }
}

impl<R: AccessRule> Session<R> {
    /// Takes the link's next event, while the guest waits for an item that wasn't received, and passes what the event asks for.
    pub(crate) fn hear<K: Link>(&mut self, link: &mut K) -> Result<(), Stop>
        requires { StandsListening (rules_by R.rule self.old) (K.seen link.old) self.old }
        ensures hears { (image : Image) (began : Since) → IsWaitingFor (rules_by R.rule self.old) image began (K.seen link.old) self.old
            → WaitsBy (rules_by R.rule self.old) image began (K.seen link.new) self.new result }
        ensures keeps { KeepsHearing (K.seen link.old) (K.seen link.new) self.old self.new result }
        ensures counts { CountsEvent self.old self.new result }
        ensures went { K.Went link.old link.new }
    {
        match hear(
            link,
            &mut self.held.log,
            &mut self.held.replies,
            &mut self.events,
            self.options.max_events,
        ) {
            Ok(Heard::Items) => self.pass_due(link),
            Ok(Heard::Closes(conn)) => self.close(link, conn),
            Ok(Heard::Settles) => self.pass(link, u64::MAX),
            Ok(Heard::Ends) => Err(Stop::Ends(SessionEnd::Finished)),
            Err(fault) => Err(stop_at(fault)),
        }
    }

    /// Hears the link until the item is there that the guest waits for.
    pub(crate) fn await_item<K: Link>(&mut self, link: &mut K) -> Result<(), Stop>
        requires { StandsHearing (rules_by R.rule self.old) (K.seen link.old) self.old }
        ensures hears { (image : Image) (began : Since) → IsWaitingFor (rules_by R.rule self.old) image began (K.seen link.old) self.old
            → WaitsBy (rules_by R.rule self.old) image began (K.seen link.new) self.new result }
        ensures there { IfOk result (λ _. self.new.taken < received self.new.log) }
        ensures keeps { KeepsHearing (K.seen link.old) (K.seen link.new) self.old self.new result }
        ensures went { K.Went link.old link.new }
    {
        'waits: while self.held.log.received() <= self.taken {
            if let Err(stop) = self.hear(link) {
                return Err(stop);
            }
        }
        Ok(())
    }
}
