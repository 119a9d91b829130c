// Pages that are shared by copy on write.
ghost use Rattle.std.specs.Prelude.{◌≡◌, ℕ, ◌+◌, ◌-◌, ◌*◌, ◌/◌, ◌%◌, ◌<◌, ◌≤◌, ◌^◌, length, take, drop, replicate, true, false, Some, None, is_some, IsSome, IfSome, IfOk, slice_get, slice_set, slice_index, if◌then◌else◌, [], ◌∷◌, ◌⊎◌};
ghost use Rattle.std.specs.Bool.{OnFalse};
ghost use Rattle.cow_pages.specs.Pages.{held_of, used_of, slot_at, IsLawful, IsMade};
ghost use Rattle.cow_pages.specs.Writes.{is_shared, Writes, Owns, StandsAt};
ghost use Rattle.cow_pages.specs.Little.{little_number, little_bytes};

use crate::frame_copy::{PAGE, copy_frame, copy_part};
use crate::little::{half_bytes, half_of, word_bytes, word_of};
use crate::moves::Moves;
use crate::slot::{Slot, blank_slots};
use crate::tables::{count_table, give_up, renew_table, row, uncount_table};
use std::alloc::{AllocError, Global};
use std::marker::Model;

/// How many pages a store has at most.
pub const MAX_PAGES: u32 = 16384;

/// How many slots a store has at most.
pub const MAX_SLOTS: u32 = 16;

/// How many frames a store has at most for each page.
pub const MAX_FRAMES_PER_PAGE: u32 = 16;

/// A live space of pages, and slots that it is saved in. A page stands in a frame of `PAGE` bytes. The live space and the
/// slots share a frame until the live space is written there, so that saving, releasing and restoring cost a table of the
/// pages at most and not their bytes, and a save over a slot of late costs the pages that moved since. Addresses are of the
/// live space, from 0.
#[derive(Debug, Drop)]
pub struct PageStore {
    pages: u32,
    frames: u32,
    // How many frames the saved slots have.
    held: u32,
    // The bytes of all frames.
    pool: Vec<u8>,
    // The frame of each page of the live space.
    live: Vec<u32>,
    // How many saved slots have each frame.
    counts: Vec<u8>,
    // The frames that no table has, with room for all.
    free: Vec<u32>,
    // The pages that moved to another frame last.
    moves: Moves,
    slots: Vec<Slot>,
}

impl Model for PageStore {
    ghost use Rattle.std.specs.Prelude.{vec_capacity};
    ghost use Rattle.cow_pages.specs.Pages.{Pages};
    ghost use Rattle.cow_pages.specs.Pool.{parts_of, pages_of, IsKept};

    ghost Value = { Pages };

    ghost view = { λ a. pages_of (parts_of a.pages a.frames a.held a.pool.items a.live.items a.counts.items a.free.items (vec_capacity a.free) a.slots.items) };

    ghost invariant = { λ a. IsKept (parts_of a.pages a.frames a.held a.pool.items a.live.items a.counts.items a.free.items (vec_capacity a.free) a.slots.items) a.moves.count a.moves.recent.items };
}

impl PageStore {
    /// A store with all bytes 0 and nothing saved: 1 to `MAX_PAGES` pages, 1 to `MAX_SLOTS` slots, and 2 to
    /// `MAX_FRAMES_PER_PAGE` frames for each page. All memory is taken here, `PAGE` bytes for each frame. No other call
    /// takes any, and none can fail.
    pub fn make(alloc: Global, pages: u32, slots: u32, frames: u32) -> Result<PageStore, AllocError>
        requires few { (1 ≤ pages) × (pages ≤ MAX_PAGES) }
        requires numbered { (1 ≤ slots) × (slots ≤ MAX_SLOTS) }
        requires enough { (2 * pages ≤ frames) × (frames ≤ MAX_FRAMES_PER_PAGE * pages) }
        ensures made { IfOk result (λ store. IsMade pages slots frames store) }
        ensures lawful { IfOk result (λ store. IsLawful store) }
    {
        Ok(PageStore {
            pages,
            frames,
            held: 0,
            pool: vec![in alloc; 0; frames as usize * PAGE as usize]?,
            live: row(alloc, pages, 0, pages)?,
            counts: vec![in alloc; 0; frames as usize]?,
            free: row(alloc, frames, pages, frames)?,
            moves: Moves::make(alloc)?,
            slots: blank_slots(alloc, slots, pages)?,
        })
    }

    /// How many pages each space has.
    pub fn pages(&self) -> u32
        ensures pages { result ≡ self.now.pages }
        ensures lawful { IsLawful self.now }
    {
        self.pages
    }

    /// How many frames there are.
    pub fn frames(&self) -> u32
        ensures frames { result ≡ self.now.frames }
        ensures lawful { IsLawful self.now }
    {
        self.frames
    }

    /// How many slots there are.
    pub fn slots(&self) -> u32
        ensures slots { result ≡ length self.now.slots }
        ensures lawful { IsLawful self.now }
    {
        self.slots.len() as u32
    }

    /// How many frames the saved slots have, each counted once.
    pub fn held(&self) -> u32
        ensures held { result ≡ held_of self.now }
        ensures lawful { IsLawful self.now }
    {
        self.held
    }

    /// How many frames the live space and the saved slots have, each counted once.
    pub fn used(&self) -> u32
        ensures used { result ≡ used_of self.now }
        ensures lawful { IsLawful self.now }
    {
        self.frames - self.free.len() as u32
    }

    /// Whether something is saved in a slot. Nothing is past the last one.
    pub fn is_saved(&self, slot: u32) -> bool
        ensures saved { result ≡ is_some (slot_at self.now slot) }
        ensures empty { OnFalse result (slot_at self.now slot ≡ None) }
        ensures lawful { IsLawful self.now }
    {
        (slot as usize) < self.slots.len() && self.slots[slot as usize].saved
    }

    /// The byte at an address of the live space.
    #[inline(always)]
    pub fn byte_at(&self, at: u32) -> u8
        requires { at < PAGE * self.now.pages }
        ensures byte { slice_get self.now.live.bytes at ≡ Some result }
        ensures lawful { IsLawful self.now }
    {
        self.pool[self.place_of(at)]
    }

    /// The number of the two bytes from an address on, the lowest first. They lie within one page.
    #[inline(always)]
    pub fn half_at(&self, at: u32) -> u16
        requires inside { at < PAGE * self.now.pages }
        requires within { at % PAGE + 2 ≤ PAGE }
        ensures half { result ≡ little_number (take 2 (drop at self.now.live.bytes)) }
        ensures lawful { IsLawful self.now }
    {
        let place = self.place_of(at);
        half_of(&self.pool[place..place + 2])
    }

    /// The number of the four bytes from an address on, the lowest first. They lie within one page.
    #[inline(always)]
    pub fn word_at(&self, at: u32) -> u32
        requires inside { at < PAGE * self.now.pages }
        requires within { at % PAGE + 4 ≤ PAGE }
        ensures word { result ≡ little_number (take 4 (drop at self.now.live.bytes)) }
        ensures lawful { IsLawful self.now }
    {
        let place = self.place_of(at);
        word_of(&self.pool[place..place + 4])
    }

    /// Puts a byte at an address of the live space.
    #[inline(always)]
    pub fn put_byte(&mut self, at: u32, byte: u8)
        requires { at < PAGE * self.old.pages }
        ensures writes { Writes self.old self.new at (byte ∷ []) }
        ensures used { used_of self.new ≡ used_of self.old + (if is_shared self.old (at / PAGE) then 1 else 0) }
        ensures lawful { IsLawful self.new }
    {
        let place = self.own_place(at);
        self.pool[place] = byte;
    }

    /// Puts a number of two bytes from an address on, the lowest byte first. They lie within one page.
    #[inline(always)]
    pub fn put_half(&mut self, at: u32, value: u16)
        requires inside { at < PAGE * self.old.pages }
        requires within { at % PAGE + 2 ≤ PAGE }
        ensures writes { Writes self.old self.new at (little_bytes 2 value) }
        ensures used { used_of self.new ≡ used_of self.old + (if is_shared self.old (at / PAGE) then 1 else 0) }
        ensures lawful { IsLawful self.new }
    {
        let bytes = half_bytes(value);
        let place = self.own_place(at);
        self.pool[place..place + 2].copy_from_slice(&bytes);
    }

    /// Puts a number of four bytes from an address on, the lowest byte first. They lie within one page.
    #[inline(always)]
    pub fn put_word(&mut self, at: u32, value: u32)
        requires inside { at < PAGE * self.old.pages }
        requires within { at % PAGE + 4 ≤ PAGE }
        ensures writes { Writes self.old self.new at (little_bytes 4 value) }
        ensures used { used_of self.new ≡ used_of self.old + (if is_shared self.old (at / PAGE) then 1 else 0) }
        ensures lawful { IsLawful self.new }
    {
        let bytes = word_bytes(value);
        let place = self.own_place(at);
        self.pool[place..place + 4].copy_from_slice(&bytes);
    }

    /// Where the byte at an address of the live space stands among the bytes of all frames.
    #[inline(always)]
    pub fn place(&self, at: u32) -> u32
        requires { at < PAGE * self.now.pages }
        ensures place { result ≡ PAGE * slice_index self.now.live.numbers (at / PAGE) + at % PAGE }
        ensures small { result < 2 ^ 30 }
    {
        self.live[(at / PAGE) as usize] * PAGE + at % PAGE
    }

    /// The byte at an address of the live space, which stands at this place.
    #[inline(always)]
    pub fn byte_from(&self, at: u32, place: usize) -> u8
        requires { StandsAt self.now at 1 place }
        ensures { slice_get self.now.live.bytes at ≡ Some result }
    {
        let _at = at;
        self.pool[place]
    }

    /// The number of the two bytes from an address on, the lowest first, which stand from this place on.
    #[inline(always)]
    pub fn half_from(&self, at: u32, place: usize) -> u16
        requires { StandsAt self.now at 2 place }
        ensures { result ≡ little_number (take 2 (drop at self.now.live.bytes)) }
    {
        let _at = at;
        half_of(&self.pool[place..place + 2])
    }

    /// The number of the four bytes from an address on, the lowest first, which stand from this place on.
    #[inline(always)]
    pub fn word_from(&self, at: u32, place: usize) -> u32
        requires { StandsAt self.now at 4 place }
        ensures { result ≡ little_number (take 4 (drop at self.now.live.bytes)) }
    {
        let _at = at;
        word_of(&self.pool[place..place + 4])
    }

    /// Puts a byte at an address of the live space, which stands at this place, in a frame that no slot has.
    #[inline(always)]
    pub fn put_byte_from(&mut self, at: u32, place: usize, value: u8)
        requires stands { StandsAt self.old at 1 place }
        requires own { is_shared self.old (at / PAGE) ≡ false }
        ensures writes { Writes self.old self.new at (value ∷ []) }
        ensures numbers { self.new.live.numbers ≡ self.old.live.numbers }
        ensures lawful { IsLawful self.new }
    {
        let _at = at;
        self.pool[place] = value;
    }

    /// Puts a number of two bytes from an address on, the lowest byte first, which stand from this place on, in a frame that no slot has.
    #[inline(always)]
    pub fn put_half_from(&mut self, at: u32, place: usize, value: u16)
        requires stands { StandsAt self.old at 2 place }
        requires own { is_shared self.old (at / PAGE) ≡ false }
        ensures writes { Writes self.old self.new at (little_bytes 2 value) }
        ensures numbers { self.new.live.numbers ≡ self.old.live.numbers }
        ensures lawful { IsLawful self.new }
    {
        let _at = at;
        let bytes = half_bytes(value);
        self.pool[place..place + 2].copy_from_slice(&bytes);
    }

    /// Puts a number of four bytes from an address on, the lowest byte first, which stand from this place on, in a frame that no slot has.
    #[inline(always)]
    pub fn put_word_from(&mut self, at: u32, place: usize, value: u32)
        requires stands { StandsAt self.old at 4 place }
        requires own { is_shared self.old (at / PAGE) ≡ false }
        ensures writes { Writes self.old self.new at (little_bytes 4 value) }
        ensures numbers { self.new.live.numbers ≡ self.old.live.numbers }
        ensures lawful { IsLawful self.new }
    {
        let _at = at;
        let bytes = word_bytes(value);
        self.pool[place..place + 4].copy_from_slice(&bytes);
    }

    /// Reads the bytes from an address of the live space on.
    pub fn read_run(&self, at: u32, buf: &mut [u8])
        requires { at + length buf.old ≤ PAGE * self.now.pages }
        ensures read { buf.new ≡ take (length buf.old) (drop at self.now.live.bytes) }
        ensures lawful { IsLawful self.now }
    {
        // What holds of every store is known from here on.
        let _ = &self.pages;
        let mut done = 0;
        'pages: while done < buf.len() {
            let from = at + done as u32;
            let count = (buf.len() - done).min((PAGE - from % PAGE) as usize);
            let place = self.place_of(from);
            buf[done..done + count].copy_from_slice(&self.pool[place..place + count]);
            done += count;
        }
    }

    /// Writes bytes from an address of the live space on.
    pub fn write_run(&mut self, at: u32, bytes: &[u8])
        requires { at + length bytes.now ≤ PAGE * self.old.pages }
        ensures writes { Writes self.old self.new at bytes.now }
        ensures lawful { IsLawful self.new }
    {
        // What holds of every store is known from here on.
        let _ = &self.pages;
        let mut done = 0;
        'pages: while done < bytes.len() {
            let from = at + done as u32;
            let count = (bytes.len() - done).min((PAGE - from % PAGE) as usize);
            self.put_within(from, &bytes[done..done + count]);
            done += count;
        }
    }

    /// Writes so many zeros from an address of the live space on.
    pub fn zero_run(&mut self, at: u32, count: u32)
        requires { at + count ≤ PAGE * self.old.pages }
        ensures writes { Writes self.old self.new at (replicate count 0) }
        ensures lawful { IsLawful self.new }
    {
        // What holds of every store is known from here on.
        let _ = &self.pages;
        let mut done = 0;
        'pages: while done < count {
            let from = at + done;
            let part = (count - done).min(PAGE - from % PAGE);
            self.zero_within(from, part);
            done += part;
        }
    }

    /// Copies so many bytes from an address of the live space on to another one. The two runs share no byte.
    pub fn copy_run(&mut self, from: u32, to: u32, count: u32)
        requires source { from + count ≤ PAGE * self.old.pages }
        requires target { to + count ≤ PAGE * self.old.pages }
        requires apart { (from + count ≤ to) ⊎ (to + count ≤ from) }
        ensures writes { Writes self.old self.new to (take count (drop from self.old.live.bytes)) }
        ensures lawful { IsLawful self.new }
    {
        // What holds of every store is known from here on.
        let _ = &self.pages;
        let mut done = 0;
        'pages: while done < count {
            let source = from + done;
            let target = to + done;
            let part = (count - done).min((PAGE - source % PAGE).min(PAGE - target % PAGE));
            self.copy_between(source, target, part);
            done += part;
        }
    }

    /// Saves the live space in a slot.
    pub fn save(&mut self, slot: u32)
        requires there { slot < length self.old.slots }
        requires empty { slot_at self.old slot ≡ None }
        requires room { used_of self.old + self.old.pages ≤ self.old.frames }
        ensures saved { self.new ≡ record self.old { slots = slice_set self.old.slots slot (Some self.old.live) } }
        ensures used { used_of self.new ≡ used_of self.old }
        ensures held { held_of self.new ≡ used_of self.old }
        ensures lawful { IsLawful self.new }
    {
        self.held += count_table(self.counts.as_mut_slice(), self.live.as_slice());
        let saved = &mut self.slots[slot as usize];
        saved
            .table
            .as_mut_slice()
            .copy_from_slice(self.live.as_slice());
        saved.saved = true;
        saved.seen = self.moves.count;
    }

    /// Gives up what is saved in a slot.
    pub fn release(&mut self, slot: u32)
        requires { IsSome (slot_at self.old slot) }
        ensures released { self.new ≡ record self.old { slots = slice_set self.old.slots slot None } }
        ensures lawful { IsLawful self.new }
    {
        let saved = &mut self.slots[slot as usize];
        saved.saved = false;
        self.held -= uncount_table(
            self.counts.as_mut_slice(),
            saved.table.as_slice(),
            self.live.as_slice(),
            &mut self.free,
        );
    }

    /// Gives up what is saved in a slot, and saves the live space there.
    pub fn save_over(&mut self, slot: u32)
        requires some { IsSome (slot_at self.old slot) }
        requires room { used_of self.old + self.old.pages ≤ self.old.frames }
        ensures saved { self.new ≡ record self.old { slots = slice_set self.old.slots slot (Some self.old.live) } }
        ensures held { held_of self.new ≡ used_of self.new }
        ensures lawful { IsLawful self.new }
    {
        let saved = &mut self.slots[slot as usize];
        let recount = renew_table(
            self.counts.as_mut_slice(),
            saved.table.as_mut_slice(),
            self.live.as_slice(),
            &mut self.free,
            &self.moves,
            saved.seen,
        );
        saved.seen = self.moves.count;
        self.held = self.held + recount.added - recount.removed;
    }

    /// Makes the live space what is saved in a slot.
    pub fn restore(&mut self, slot: u32)
        requires { IsSome (slot_at self.old slot) }
        ensures restored { IfSome (slot_at self.old slot) (λ space. self.new ≡ record self.old { live = space }) }
        ensures lawful { IsLawful self.new }
    {
        self.moves.add_all();
        give_up(self.counts.as_slice(), self.live.as_slice(), &mut self.free);
        let saved = &self.slots[slot as usize];
        self.live
            .as_mut_slice()
            .copy_from_slice(saved.table.as_slice());
    }

    // Where a byte of the live space stands in the pool.
    #[inline(always)]
    fn place_of(&self, at: u32) -> usize
        requires { at < PAGE * self.now.pages }
        ensures { result ≡ PAGE * slice_index self.now.live.numbers (at / PAGE) + at % PAGE }
    {
        place_in(self.live[(at / PAGE) as usize], at)
    }

    // Gives the page of an address a frame of its own, unless it has one. The answer is where the byte stands then.
    #[inline(always)]
    fn own_place(&mut self, at: u32) -> usize
        requires { at < PAGE * self.old.pages }
        ensures owns { Owns self.old self.new (at / PAGE) }
        ensures place { result ≡ PAGE * slice_index self.new.live.numbers (at / PAGE) + at % PAGE }
    {
        let page = (at / PAGE) as usize;
        let frame = self.live[page];
        if self.counts[frame as usize] == 0 {
            return place_in(frame, at);
        }
        let fresh = self.copy_page(page);
        place_in(fresh, at)
    }

    // Moves a shared page to a free frame, with its bytes. The answer is the frame.
    #[cold]
    #[inline(never)]
    fn copy_page(&mut self, page: usize) -> u32
        requires inside { page < self.old.pages }
        requires shared { is_shared self.old page ≡ true }
        ensures owns { Owns self.old self.new page }
        ensures frame { result ≡ slice_index self.new.live.numbers page }
    {
        let shared = self.live[page];
        let Some(fresh) = self.free.pop() else {
            unreachable!();
        };
        let from = shared as usize * PAGE as usize;
        let to = fresh as usize * PAGE as usize;
        copy_frame(self.pool.as_mut_slice(), from, to);
        self.live[page] = fresh;
        self.moves.add(page as u32);
        fresh
    }

    // Puts bytes from an address on that lie within one page.
    fn put_within(&mut self, at: u32, bytes: &[u8])
        requires some { 0 < length bytes.now }
        requires inside { at < PAGE * self.old.pages }
        requires within { at % PAGE + length bytes.now ≤ PAGE }
        ensures writes { Writes self.old self.new at bytes.now }
        ensures lawful { IsLawful self.new }
    {
        let place = self.own_place(at);
        self.pool[place..place + bytes.len()].copy_from_slice(bytes);
    }

    // Copies so many bytes that lie within one page to where they lie within one page. The two runs share no byte.
    fn copy_between(&mut self, from: u32, to: u32, count: u32)
        requires some { 0 < count }
        requires source { (from < PAGE * self.old.pages) × (from % PAGE + count ≤ PAGE) }
        requires target { (to < PAGE * self.old.pages) × (to % PAGE + count ≤ PAGE) }
        requires apart { (from + count ≤ to) ⊎ (to + count ≤ from) }
        ensures writes { Writes self.old self.new to (take count (drop from self.old.live.bytes)) }
        ensures lawful { IsLawful self.new }
    {
        let target = self.own_place(to);
        let source = self.place_of(from);
        copy_part(self.pool.as_mut_slice(), source, target, count as usize);
    }

    // Puts so many zeros from an address on that lie within one page.
    fn zero_within(&mut self, at: u32, count: u32)
        requires some { 0 < count }
        requires inside { at < PAGE * self.old.pages }
        requires within { at % PAGE + count ≤ PAGE }
        ensures writes { Writes self.old self.new at (replicate count 0) }
        ensures lawful { IsLawful self.new }
    {
        let place = self.own_place(at);
        self.pool[place..place + count as usize].fill(0);
    }
}

// Where a byte of a page stands in the pool, by the page's frame.
#[inline(always)]
fn place_in(frame: u32, at: u32) -> usize
    ensures { result ≡ PAGE * frame + at % PAGE }
{
    frame as usize * PAGE as usize + (at % PAGE) as usize
}
