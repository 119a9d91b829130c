// What a session gives up as it goes on.
ghost use Rattle.std.specs.Prelude.{◌≡◌, ℕ, None, List, IfSome};
ghost use Rattle.links.specs.declared.journal.Entry.{Entry};
ghost use Rattle.guest_image.specs.declared.image.Image.{Image};
ghost use Rattle.ckpt_ring.specs.Slots.{oldest_of};
ghost use Rattle.item_log.specs.Log.{received};
ghost use Rattle.item_log.specs.Log as logs;
ghost use Rattle.reply_ledger.specs.Ledger.{is_open};
ghost use Rattle.reply_ledger.specs.Trimming as ledgers;
ghost use Rattle.run_history.specs.Served.{Override, Path};
ghost use Rattle.session_history.specs.Keeping.{KeepsItems, KeepsReplies};
ghost use Rattle.session_history.specs.Lawful.{Rules};
ghost use Rattle.recovery.specs.Forgetting.{CanForget, Forgets};
ghost use Rattle.recovery.specs.Recoverables.{HoldsRing};

use crate::Recoverable;
use guest_space::AccessRule;

impl<R: AccessRule> Recoverable<R> {
    /// Gives up the items and the replies that no trial needs any more: those from before the oldest checkpoint. A reply that may still be
    /// passed stays, and so does all behind it. It takes no memory.
    pub fn forget(&mut self)
        requires can { CanForget self.old.cpu self.old.log self.old.replies }
        ensures forgets { (rules : Rules) (image : Image) (entries : List Entry) (plan : List Override) (now : Path) (paths : List Path) → HoldsRing rules image entries plan now paths self.old
            → KeepsItems rules.bounds entries self.old.log → KeepsReplies rules.bounds entries None now.state.sends self.old.replies
            → Forgets rules image entries plan now paths self.new.cpu self.new.log self.new.replies }
        ensures received { received self.new.log ≡ received self.old.log }
        ensures open { (conn : ℕ) → is_open self.new.replies.connections conn ≡ is_open self.old.replies.connections conn }
        ensures trial { self.new.replies.trial ≡ None }
        ensures first { IfSome (oldest_of self.old.cpu.slots.saved) (λ oldest. self.new.log ≡ logs.trimmed self.old.log oldest.state.guest.machine.taken) }
        ensures first_send { IfSome (oldest_of self.old.cpu.slots.saved) (λ oldest. self.new.replies ≡ ledgers.trimmed self.old.replies oldest.state.sends) }
        ensures rest { self.new ≡ record self.old { log = self.new.log; replies = self.new.replies } }
    {
        let oldest = self.cpu.oldest_marks();
        self.log.trim(oldest.taken);
        self.replies.trim(oldest.sends);
    }
}
