// The pages of the live space that moved to another frame last.
ghost use Rattle.std.specs.Prelude.{◌≡◌, ◌+◌, ◌%◌, ◌<◌, ◌≤◌, length, replicate, true, slice_set, IfOk};

use std::alloc::{AllocError, Global};

// How many moves are kept.
pub const RECENT: u64 = 256;

// How many moves are counted. No move is known from there on.
pub const MOST: u64 = 0x4000_0000_0000_0000;

// The moves of pages, numbered in their order.
#[derive(Debug, Drop)]
pub struct Moves {
    // The number of the next one.
    pub count: u64,
    // The pages of the last ones: that of a move stands at its number modulo `RECENT`.
    pub recent: Vec<u32>,
}

impl Moves {
    // No page moved yet.
    pub fn make(alloc: Global) -> Result<Moves, AllocError>
        ensures none { IfOk result (λ moves. moves.count ≡ 0) }
        ensures recent { IfOk result (λ moves. moves.recent.items ≡ replicate RECENT 0) }
    {
        Ok(Moves {
            count: 0,
            recent: vec![in alloc; 0; RECENT as usize]?,
        })
    }

    // A page moved.
    #[inline(always)]
    pub fn add(&mut self, page: u32)
        requires { length self.old.recent.items ≡ RECENT }
        ensures count { self.old.count < MOST → self.new.count ≡ self.old.count + 1 }
        ensures most { MOST ≤ self.old.count → self.new.count ≡ self.old.count }
        ensures recent { self.new.recent.items ≡ slice_set self.old.recent.items (self.old.count % RECENT) page }
    {
        self.recent[(self.count % RECENT) as usize] = page;
        if self.count < MOST {
            self.count += 1;
        }
    }

    // Any page may have moved.
    pub fn add_all(&mut self)
        ensures count { self.old.count < MOST → self.old.count + RECENT < self.new.count }
        ensures most { MOST ≤ self.old.count → self.new.count ≡ self.old.count }
        ensures recent { self.new.recent.items ≡ self.old.recent.items }
    {
        if self.count < MOST {
            self.count += RECENT + 1;
        }
    }

    // Whether all moves from a number on are kept.
    #[inline(always)]
    pub fn has_all_since(&self, seen: u64) -> bool
        requires { seen ≤ self.now.count }
        ensures counted { result ≡ true → self.now.count < MOST }
        ensures kept { result ≡ true → self.now.count ≤ seen + RECENT }
    {
        self.count < MOST && self.count - seen <= RECENT
    }
}
