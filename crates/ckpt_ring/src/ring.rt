// The order of saved slots.
ghost use Rattle.std.specs.Prelude.{◌≡◌, ◌==◌, ◌-◌, ◌<◌, ◌≤◌, [], ◌∷◌, length, drop, take, slice_get, Some, IfOk, Contains};
ghost use Rattle.std.specs.List.{list_any};
ghost use Rattle.ckpt_ring.specs.Slots.{oldest_of};
ghost use Rattle.ckpt_ring.specs.Line.{line_of};

use circular_buffer::HeapCircularBuffer;
use std::alloc::{AllocError, Global};
use std::marker::Model;

/// The numbers of saved slots in the order of saving, at most 16, and on which of them the live state stands.
#[derive(Drop)]
pub struct Ring {
    order: HeapCircularBuffer<u32>,
    newer: u32,
}

impl Model for Ring {
    ghost use Rattle.std.specs.Prelude.{◌≡◌};
    ghost use Rattle.ckpt_ring.specs.Line.{Line, line_of};

    ghost Value = { Line };

    ghost view = { λ ring. line_of ring.order.items ring.newer };

    ghost invariant = { λ ring. ring.order.capacity ≡ 16 };
}

impl Ring {
    /// No slot is saved.
    pub fn make(alloc: Global) -> Result<Ring, AllocError>
        ensures { IfOk result (λ ring. ring ≡ line_of [] 0) }
    {
        let order = HeapCircularBuffer::with_capacity(alloc, 16)?;
        Ok(Ring { order, newer: 0 })
    }

    /// How many slots are saved.
    pub fn len(&self) -> u32
        ensures { result ≡ length self.now.order }
    {
        self.order.len() as u32
    }

    /// The slot at an index. 0 is the one that was saved last.
    pub fn slot_at(&self, index: u32) -> u32
        requires { index < length self.now.order }
        ensures { slice_get self.now.order index ≡ Some result }
    {
        self.order.get(index as usize).copied().unwrap()
    }

    /// The slot that was saved first of those that are saved.
    pub fn oldest(&self) -> u32
        requires { 0 < length self.now.order }
        ensures { oldest_of self.now.order ≡ Some result }
    {
        self.slot_at(self.len() - 1)
    }

    /// The lowest slot that isn't saved.
    pub fn free_slot(&self) -> u32
        ensures free { ¬ Contains self.now.order result }
        ensures low { result ≤ length self.now.order }
    {
        let saved = self.len();
        for slot in 0..saved {
            if !self.has(slot) {
                return slot;
            }
        }
        saved
    }

    /// A slot was saved, and the live state stands on it.
    pub fn push(&mut self, slot: u32)
        requires { length self.old.order < 16 }
        ensures { self.new ≡ line_of (slot ∷ self.old.order) 0 }
    {
        self.order.push_front(slot);
        self.newer = 0;
    }

    /// The live state stands on the slot at an index.
    pub fn stand_on(&mut self, index: u32)
        ensures { self.new ≡ line_of self.old.order index }
    {
        self.newer = index;
    }

    /// The oldest slot isn't saved any more.
    pub fn drop_oldest(&mut self)
        ensures { self.new ≡ line_of (take (length self.old.order - 1) self.old.order) self.old.newer }
    {
        self.order.pop_back();
    }

    /// The slot that was saved last isn't saved any more.
    pub fn drop_newest(&mut self)
        ensures { self.new ≡ line_of (drop 1 self.old.order) (self.old.newer - 1) }
    {
        self.order.pop_front();
        self.newer = self.newer.saturating_sub(1);
    }

    // Whether this slot is saved.
    fn has(&self, slot: u32) -> bool
        ensures { result ≡ list_any (λ other. slot == other) self.now.order }
    {
        self.order.iter().any(|other| slot == *other)
    }
}
