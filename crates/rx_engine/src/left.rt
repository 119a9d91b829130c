// What a session leaves.
use block_book::Choices;
use guest_cpu::Cpu;
use guest_space::AccessRule;
use item_log::ItemLog;
use reply_ledger::Replies;

/// What a session leaves of the run that it answers for, and its own objects.
#[derive(Drop)]
pub struct Left<R: AccessRule> {
    /// How many of the run's answers of the allocator are noted.
    pub recorded: u64,
    /// The answers behind those, in their order.
    pub tail: Choices,
    /// How many instructions the run has.
    pub steps: u64,
    /// How many items it took.
    pub taken: u64,
    /// The guest, with its checkpoints.
    pub cpu: Cpu<R>,
    /// The items that a trial might still have needed.
    pub log: ItemLog,
    /// The replies that might still have been passed or compared, and what was passed.
    pub replies: Replies,
}
