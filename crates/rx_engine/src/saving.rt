// The checkpoints of a session.
ghost use Rattle.std.specs.Prelude.{◌≡◌, ◌<◌, ◌+◌, ◌^◌, [], ◌∷◌, length, true, IfSome, OnErr, slice_get};
ghost use Rattle.links.specs.Seen.{Seen};
ghost use Rattle.ckpt_ring.specs.Slots.{oldest_of};
ghost use Rattle.reply_ledger.specs.Trimming.{trimmed};
ghost use Rattle.guest_image.specs.declared.image.Image.{Image};
ghost use Rattle.run_history.specs.Served.{origin};
ghost use Rattle.session_history.specs.Lawful.{Rules};
ghost use Rattle.recovery.specs.Rings.{KeepsRing, SavesIf};
ghost use Rattle.recovery.specs.Handling.{alone, is_far, stands_of};
ghost use Rattle.session_state.specs.Sessions.{IsBegun};
ghost use Rattle.session_state.specs.Standing.{Since, IsWaitingFor};
ghost use Rattle.session_state.specs.Leaving.{IsHandled, CanForgetSends};
ghost use Rattle.session_following.specs.TakingOver.{UnnotedBy};
ghost use Rattle.session_state.specs.Serving.{IsReadyToServe, StandsSomewhere, WaitsBy, KeepsSaving, KeepsNoting, KeepsForgetting, NotesRest, HasNoteRest, rules_by};

use crate::Session;
use crate::recovering::note_answer;
use guest_space::AccessRule;
use session_history::{SessionBreak, Stop};
use session_notes::Notes;
use session_state::note_up_to;

impl<R: AccessRule> Session<R> {
    /// Saves the start of the program as the first checkpoint.
    pub(crate) fn save_start(&mut self)
        requires { IsReadyToServe self.old }
        ensures rings { (rules : Rules) (image : Image) → IsBegun image self.old.options self.old.cpu.rule self.old
            → KeepsRing rules image [] [] (origin image) (origin image ∷ []) self.new.cpu self.old.log self.old.replies }
        ensures first { stands_of self.new.cpu.slots.saved ≡ alone 0 self.new.cpu.slots.pages }
        ensures keeps { KeepsSaving self.old self.new }
    {
        self.held.save_start();
    }

    /// Saves the guest at its request for an item as the newest checkpoint, where enough items were taken since the last one.
    pub(crate) fn save(&mut self)
        requires { StandsSomewhere (rules_by R.rule self.old) self.old }
        ensures waits { (image : Image) (began : Since) (seen : Seen) → IsWaitingFor (rules_by R.rule self.old) image began seen self.old → IsWaitingFor (rules_by R.rule self.old) image began seen self.new }
        ensures handled { IsHandled self.new }
        ensures saved { SavesIf (is_far self.old.options.every self.old.taken (slice_get (stands_of self.old.cpu.slots.saved) 0)) self.old.cpu self.new.cpu }
        ensures keeps { KeepsSaving self.old self.new }
    {
        self.held.save(self.options.every);
    }

    /// Notes the answers of the allocator that no trial can take back any more: those from before the oldest checkpoint.
    pub(crate) fn note_choices<N: Notes>(&mut self, notes: &mut N) -> Result<(), Stop>
        requires { StandsSomewhere (rules_by R.rule self.old) self.old }
        ensures waits { (image : Image) (began : Since) (seen : Seen) → seen.takes ≡ true → IsWaitingFor (rules_by R.rule self.old) image (record began { noted = (N.shown notes.old).told }) seen self.old
            → WaitsBy (rules_by R.rule self.old) image (record began { noted = (N.shown notes.new).told }) seen self.new result }
        ensures keeps { KeepsNoting (N.shown notes.old) (N.shown notes.new) self.old self.new result }
        ensures episodes { (N.shown notes.new).told.episodes ≡ (N.shown notes.old).told.episodes }
        ensures none { OnErr result (((N.shown notes.new).told.choices ≡ (N.shown notes.old).told.choices) × (self.new ≡ self.old)) }
        ensures unnoted { UnnotedBy (N.shown notes.old).told.unnoted (N.shown notes.new).told.unnoted self.new.choices result }
        ensures fixed { N.fixed notes.new ≡ N.fixed notes.old }
    {
        let safe = self.held.cpu.oldest_marks().choices;
        if let Err(fault) = note_up_to(
            notes,
            safe,
            &mut self.held.recorded,
            &mut self.held.choices,
        ) {
            return Err(Stop::Breaks(note_answer(fault)));
        }
        Ok(())
    }

    /// Gives up the items and the replies that no trial needs any more.
    pub(crate) fn forget(&mut self)
        requires { StandsSomewhere (rules_by R.rule self.old) self.old }
        ensures waits { (image : Image) (began : Since) (seen : Seen) → IsWaitingFor (rules_by R.rule self.old) image began seen self.old → IsWaitingFor (rules_by R.rule self.old) image began seen self.new }
        ensures keeps { KeepsForgetting self.old self.new }
    {
        self.held.forget();
    }

    /// At an end: gives up the replies from before the oldest checkpoint.
    pub(crate) fn forget_sends(&mut self)
        requires can { CanForgetSends self.old }
        ensures same { self.new ≡ record self.old { replies = self.new.replies } }
        ensures trimmed { IfSome (oldest_of self.old.cpu.slots.saved) (λ oldest. self.new.replies ≡ trimmed self.old.replies oldest.state.sends) }
    {
        let oldest = self.held.cpu.oldest_marks();
        self.held.replies.trim(oldest.sends);
    }

    /// At an end: notes the answers of the allocator that aren't noted yet.
    pub(crate) fn note_rest<N: Notes>(&mut self, notes: &mut N) -> Result<(), SessionBreak>
        requires { self.old.recorded + length self.old.choices < 2 ^ 64 }
        ensures noted { NotesRest (N.shown notes.old) (N.shown notes.new) self.old self.new result }
        ensures shows { HasNoteRest (N.shown notes.old) (N.shown notes.new) result }
        ensures fixed { N.fixed notes.new ≡ N.fixed notes.old }
    {
        let all = self.held.recorded + self.held.choices.len() as u64;
        match note_up_to(notes, all, &mut self.held.recorded, &mut self.held.choices) {
            Ok(()) => Ok(()),
            Err(fault) => Err(note_answer(fault)),
        }
    }
}
