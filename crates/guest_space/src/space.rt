// The memory of a guest: spans of a window of pages.
ghost use Rattle.std.specs.Prelude.{◌≡◌, ◌==◌, ◌+◌, ◌-◌, ◌*◌, ◌/◌, ◌%◌, ◌^◌, ◌<◌, ◌≤◌, length, take, drop, replicate, true, false, Some, None, is_some, IsSome, IfOk, Ok, IfSome, MatchBool, slice_get, slice_set, if◌then◌else◌, ◌⊎◌};
ghost use Rattle.std.specs.Bool.{OnFalse, OnTrue};
ghost use Rattle.rv_isa.specs.Words.{little_bytes};
ghost use Rattle.guest_image.specs.Memory.{permitted, bytes_at};
ghost use Rattle.cow_pages.specs.Pages.{slot_at, used_of, held_of};
ghost use Rattle.cow_pages.specs.Writes.{StandsAt, is_shared};
ghost use Rattle.guest_space.specs.Space.{flat, IsLawfulSpace};
ghost use Rattle.guest_space.specs.Access.{IsStart, Reads, Puts, Stores, Saves, SavesOver, Releases, Restores};
ghost use Rattle.guest_space.specs.Ranges.{AreHeld};
ghost use Rattle.guest_space.specs.Stretches.{IsOpen, IsIn};
ghost use Rattle.guest_space.specs.Windows.{IsWindow, IsOfPage, AreWindows, HasAddress, load_window};

use crate::code::code_of;
use crate::filling::{fill, spans_of};
use crate::number::number_of;
use crate::span::{
    EXECUTE, READ, Span, WRITE, are_held, each_has, one_has, stretch_at, stretch_of,
};
use crate::window::recent_of;
use crate::{BadAccess, Stretch, Window, Windows};
use code_table::CodeTable;
use cow_pages::{MAX_FRAMES_PER_PAGE, MAX_SLOTS, PAGE, PageStore};
use guest_image::Image;
use std::alloc::{AllocError, Global};
use std::marker::Model;
use std::rc::Rc;

// A store's pages are those by which an image is laid out.
const _: () = prove!(cow_pages::PAGE == guest_image::PAGE);

// How many addresses there are.
const ADDRESSES: u64 = 0x1_0000_0000;

/// The memory of a guest: a window of pages of `PAGE` bytes from a base on, of which its spans may be touched.
#[derive(Debug, Drop)]
pub struct GuestSpace {
    base: u32,
    spans: Vec<Span>,
    store: PageStore,
    code: Rc<CodeTable>,
}

impl Model for GuestSpace {
    ghost use Rattle.guest_space.specs.Space.{GuestPages, guest_pages, IsLawfulSpace};

    ghost Value = { GuestPages };

    ghost view = { λ s. guest_pages s.base s.spans.items s.store s.code.value };

    ghost invariant = { λ s. IsLawfulSpace (guest_pages s.base s.spans.items s.store s.code.value) };
}

impl GuestSpace {
    /// The memory at a program's start: its segments, its heap and its stack, with nothing saved, and the table of its code.
    /// The window has a page for each `PAGE` of its bytes: 1 to `MAX_SLOTS` slots, and 2 to `MAX_FRAMES_PER_PAGE` frames for each page.
    pub fn make(
        alloc: Global,
        image: &Image,
        slots: u32,
        frames: u32,
    ) -> Result<GuestSpace, AllocError>
        requires numbered { (1 ≤ slots) × (slots ≤ MAX_SLOTS) }
        requires enough { (2 * (image.now.window / PAGE) ≤ frames) × (frames ≤ MAX_FRAMES_PER_PAGE * (image.now.window / PAGE)) }
        ensures start { IfOk result (λ space. IsStart image.now (image.now.window / PAGE) slots frames space) }
        ensures lawful { IfOk result (λ space. IsLawfulSpace space) }
    {
        let base = image.base();
        let pages = image.window / PAGE;
        let spans = spans_of(alloc, image)?;
        let mut store = PageStore::make(alloc, pages, slots, frames)?;
        fill(&mut store, base, image.segments.as_slice());
        let table = code_of(alloc, base, &spans, &store)?;
        let code = Rc::new(alloc, table)?;
        Ok(GuestSpace {
            base,
            spans,
            store,
            code,
        })
    }

    /// What holds of every guest's memory.
    #[inline(always)]
    pub fn sound(&self)
        ensures { IsLawfulSpace self.now }
    {
        let _base = self.base;
    }

    /// The address of the first word that the table has an entry of.
    #[inline(always)]
    pub fn code_start(&self) -> u32
        ensures { result ≡ self.now.code.start }
    {
        self.code.start()
    }

    /// How many entries the table has, with the last one, which stops.
    #[inline(always)]
    pub fn code_len(&self) -> usize
        ensures { result ≡ length self.now.code.entries }
    {
        self.code.len()
    }

    /// The table, which outlives a loan of the memory for writing. An error where it has too many owners.
    #[inline(always)]
    pub fn code(&self) -> Result<Rc<CodeTable>, AllocError>
        ensures { IfOk result (λ code. code.value ≡ self.now.code) }
    {
        self.code.clone()
    }

    /// Whether so many bytes from an address on may be written, or read.
    #[inline(always)]
    pub fn allows(&self, at: u32, len: u32, write: bool) -> bool
        ensures { result ≡ permitted (if write then 2 else 4) (flat self.now) at len }
    {
        self.permits(if write { WRITE } else { READ }, at, len)
    }

    /// The number of at most four bytes from an address on, the lowest first.
    #[inline(always)]
    pub fn load(&self, at: u32, size: u32) -> Result<u32, BadAccess>
        requires { size ≤ 4 }
        ensures value { Reads 4 (flat self.now) at size result }
        ensures few { IfOk result (λ value. value < 2 ^ (8 * size)) }
    {
        self.number_at(READ, at, size)
    }

    /// The instruction word at an address.
    #[inline(always)]
    pub fn fetch(&self, at: u32) -> Result<u32, BadAccess>
        ensures { Reads 1 (flat self.now) at 4 result }
    {
        self.number_at(EXECUTE, at, 4)
    }

    /// Puts the low bytes of a number, at most four, from an address on, the lowest first.
    #[inline(always)]
    pub fn store(&mut self, at: u32, size: u32, value: u32) -> Result<(), BadAccess>
        requires { size ≤ 4 }
        ensures stored { Stores self.old at (little_bytes size value) result self.new }
    {
        if !one_has(&self.spans, WRITE, at, size) {
            return self.store_each(at, size, value);
        }
        if self.put_number(at, size, value) {
            return Ok(());
        }
        self.store_each(at, size, value)
    }

    /// Whether the window begins at a multiple of 4.
    #[inline(always)]
    pub fn is_whole(&self) -> bool
        ensures { result ≡ (self.now.base % 4 == 0) }
    {
        self.base % 4 == 0
    }

    /// The instruction word at an address that is a multiple of 4, as the window's start is, found by a stretch, which is moved
    /// there where it doesn't have the address. None where it may not be fetched, and also where its bytes are in two spans.
    #[inline(always)]
    pub fn fetch_by(&self, stretch: &mut Stretch, at: u32) -> Option<u32>
        requires base { self.now.base % 4 ≡ 0 }
        requires whole { at % 4 ≡ 0 }
        requires holds { IsOpen 1 self.now.spans stretch.old }
        ensures holds { IsOpen 1 self.now.spans stretch.new }
        ensures value { IfSome result (λ word. Reads 1 (flat self.now) at 4 (Ok word)) }
    {
        if !self.reaches(EXECUTE, stretch, at) {
            return None;
        }
        Some(self.whole_word(at))
    }

    /// The number of one, two or four bytes from an address on, the lowest first, found by a stretch as `fetch_by` does.
    /// None also where the bytes are in two pages.
    #[inline(always)]
    pub fn load_by(&self, stretch: &mut Stretch, at: u32, size: u32) -> Option<u32>
        requires some { 0 < size }
        requires small { size ≤ 4 }
        requires holds { IsOpen 4 self.now.spans stretch.old }
        ensures holds { IsOpen 4 self.now.spans stretch.new }
        ensures value { IfSome result (λ value. Reads 4 (flat self.now) at size (Ok value)) }
        ensures few { IfSome result (λ value. value < 2 ^ (8 * size)) }
    {
        if !self.reaches(READ, stretch, at) {
            return None;
        }
        self.number_in_page(READ, at, size)
    }

    /// Puts the low bytes of a number, one, two or four, from an address on, the lowest first, found by a stretch as
    /// `fetch_by` does. Else nothing changed.
    #[inline(always)]
    pub fn store_by(&mut self, stretch: &mut Stretch, at: u32, size: u32, value: u32) -> bool
        requires small { size ≤ 4 }
        requires holds { IsOpen 2 self.old.spans stretch.old }
        ensures holds { IsOpen 2 self.old.spans stretch.new }
        ensures stored { MatchBool result ((permitted 2 (flat self.old) at size ≡ true) × Puts self.old at (little_bytes size value) self.new) (self.new ≡ self.old) }
    {
        if !self.reaches(WRITE, stretch, at) {
            return false;
        }
        self.put_number(at, size, value)
    }

    /// The number of one, two or four bytes from an address on, the lowest first, found by the window of a register, which is moved
    /// there where it doesn't have the address. None where four bytes from there may not be read, or are in two pages.
    #[inline(never)]
    pub fn load_from(&self, windows: &mut Windows, register: u8, at: u32, size: u32) -> Option<u32>
        requires register { register < 32 }
        requires some { 0 < size }
        requires small { size ≤ 4 }
        requires holds { AreWindows self.now windows.old }
        ensures holds { AreWindows self.now windows.new }
        ensures value { IfSome result (λ value. Reads 4 (flat self.now) at size (Ok value)) }
        ensures few { IfSome result (λ value. value < 2 ^ (8 * size)) }
    {
        if let Some(value) = self.load_within(windows, register, at, size) {
            return Some(value);
        }
        if !self.finds_elsewhere(windows, register, at) {
            return None;
        }
        self.load_within(windows, register, at, size)
    }

    /// Puts the low bytes of a number, one, two or four, from an address on, the lowest first, found by the window of a register,
    /// which is moved there where it doesn't have the address. Else nothing changed.
    #[inline(never)]
    pub fn store_from(
        &mut self,
        windows: &mut Windows,
        register: u8,
        at: u32,
        size: u32,
        value: u32,
    ) -> bool
        requires register { register < 32 }
        requires small { size ≤ 4 }
        requires holds { AreWindows self.old windows.old }
        ensures holds { AreWindows self.new windows.new }
        ensures stored { MatchBool result ((permitted 2 (flat self.old) at size ≡ true) × Puts self.old at (little_bytes size value) self.new) (self.new ≡ self.old) }
    {
        let window = windows.stores.of(register);
        if !window.has(at) {
            return self.store_elsewhere(windows, register, at, size, value);
        }
        self.put_from(
            at,
            size,
            value,
            (window.place + (at - window.start)) as usize,
        )
    }

    /// As `load_from`, where the window of the register has the address. Else None.
    #[inline(always)]
    pub fn load_within(&self, windows: &Windows, register: u8, at: u32, size: u32) -> Option<u32>
        requires register { register < 32 }
        requires some { 0 < size }
        requires small { size ≤ 4 }
        requires holds { AreWindows self.now windows.now }
        ensures value { IfSome result (λ value. Reads 4 (flat self.now) at size (Ok value)) }
        ensures few { IfSome result (λ value. value < 2 ^ (8 * size)) }
    {
        let window = windows.loads.of(register);
        if !window.has(at) {
            return None;
        }
        self.number_from(at, size, (window.place + (at - window.start)) as usize)
    }

    /// As `store_from`, where the window of the register has the address. Else nothing changed.
    #[inline(always)]
    pub fn store_within(
        &mut self,
        windows: &Windows,
        register: u8,
        at: u32,
        size: u32,
        value: u32,
    ) -> bool
        requires register { register < 32 }
        requires small { size ≤ 4 }
        requires holds { AreWindows self.old windows.now }
        ensures holds { AreWindows self.new windows.now }
        ensures stored { MatchBool result ((permitted 2 (flat self.old) at size ≡ true) × Puts self.old at (little_bytes size value) self.new) (self.new ≡ self.old) }
    {
        let window = windows.stores.of(register);
        if !window.has(at) {
            return false;
        }
        self.put_from(
            at,
            size,
            value,
            (window.place + (at - window.start)) as usize,
        )
    }

    /// So many bytes from an address on, which may be read: `allows` tests it. The only error is want of memory.
    pub fn read_bytes(&self, alloc: Global, at: u32, len: u32) -> Result<Vec<u8>, AllocError>
        requires { permitted 4 (flat self.now) at len ≡ true }
        ensures { IfOk result (λ bytes. bytes.items ≡ bytes_at 4 (flat self.now) at len) }
    {
        let mut bytes = vec![in alloc; 0; len as usize]?;
        let _base = self.base;
        if len == 0 {
            return Ok(bytes);
        }
        self.store.read_run(at - self.base, bytes.as_mut_slice());
        Ok(bytes)
    }

    /// Puts bytes from an address on. It requires that all of them may be written, which `allows` tests, and refuses nothing.
    pub fn write_bytes(&mut self, at: u32, bytes: &[u8])
        requires { permitted 2 (flat self.old) at (length bytes.now) ≡ true }
        ensures { Puts self.old at bytes.now self.new }
    {
        let _base = self.base;
        if bytes.is_empty() {
            return;
        }
        self.store.write_run(at - self.base, bytes);
    }

    /// The same, with windows. Where one page was moved to another frame, those of loads go with it; where several may have been,
    /// they are forgotten.
    pub fn write_bytes_by(&mut self, windows: &mut Windows, at: u32, bytes: &[u8])
        requires permitted { permitted 2 (flat self.old) at (length bytes.now) ≡ true }
        requires holds { AreWindows self.old windows.old }
        ensures holds { AreWindows self.new windows.new }
        ensures put { Puts self.old at bytes.now self.new }
    {
        if bytes.is_empty() {
            return self.write_bytes(at, bytes);
        }
        let near = at - self.base;
        let offset = near % PAGE;
        if offset as usize + bytes.len() > PAGE as usize {
            self.write_bytes(at, bytes);
            return windows.forget_loads();
        }
        let before = self.store.place(near);
        self.write_bytes(at, bytes);
        windows.follow(before - offset, self.store.place(near) - offset);
    }

    /// Puts so many zeros from an address on. It requires that all of them may be written, which `allows` tests, and refuses
    /// nothing.
    pub fn zero(&mut self, at: u32, len: u32)
        requires { permitted 2 (flat self.old) at len ≡ true }
        ensures { Puts self.old at (replicate len 0) self.new }
    {
        let _base = self.base;
        if len == 0 {
            return;
        }
        self.store.zero_run(at - self.base, len);
    }

    /// Puts as many bytes from an address on as stand from another one on, where they are read from. It requires that those may be read and
    /// these written, which `allows` tests, and that the two runs share no byte. It refuses nothing.
    pub fn copy(&mut self, from: u32, at: u32, len: u32)
        requires read { permitted 4 (flat self.old) from len ≡ true }
        requires written { permitted 2 (flat self.old) at len ≡ true }
        requires apart { (from + len ≤ at) ⊎ (at + len ≤ from) }
        ensures { Puts self.old at (bytes_at 4 (flat self.old) from len) self.new }
    {
        let _base = self.base;
        if len == 0 {
            return;
        }
        self.store.copy_run(from - self.base, at - self.base, len);
    }

    /// Saves the memory in a slot.
    pub fn save(&mut self, slot: u32)
        requires there { slot < length self.old.store.slots }
        requires empty { slot_at self.old.store slot ≡ None }
        requires room { used_of self.old.store + self.old.store.pages ≤ self.old.store.frames }
        ensures saved { Saves self.old slot self.new }
    {
        self.store.save(slot);
    }

    /// Gives up what is saved in a slot, and saves the memory there.
    pub fn save_over(&mut self, slot: u32)
        requires some { IsSome (slot_at self.old.store slot) }
        requires room { used_of self.old.store + self.old.store.pages ≤ self.old.store.frames }
        ensures saved { SavesOver self.old slot self.new }
    {
        self.store.save_over(slot);
    }

    /// Gives up what is saved in a slot.
    pub fn release(&mut self, slot: u32)
        requires { IsSome (slot_at self.old.store slot) }
        ensures released { Releases self.old slot self.new }
    {
        self.store.release(slot);
    }

    /// Makes the memory what is saved in a slot.
    pub fn restore(&mut self, slot: u32)
        requires { IsSome (slot_at self.old.store slot) }
        ensures restored { Restores self.old slot self.new }
    {
        self.store.restore(slot);
    }

    /// How many pages the memory has.
    pub fn pages(&self) -> u32
        ensures pages { result ≡ self.now.store.pages }
        ensures lawful { IsLawfulSpace self.now }
    {
        self.store.pages()
    }

    /// How many frames there are.
    pub fn frames(&self) -> u32
        ensures frames { result ≡ self.now.store.frames }
        ensures lawful { IsLawfulSpace self.now }
    {
        self.store.frames()
    }

    /// How many frames the saved slots have, each counted once.
    pub fn held(&self) -> u32
        ensures held { result ≡ held_of self.now.store }
        ensures lawful { IsLawfulSpace self.now }
    {
        self.store.held()
    }

    /// How many frames the memory and the saved slots have, each counted once.
    pub fn used(&self) -> u32
        ensures used { result ≡ used_of self.now.store }
        ensures lawful { IsLawfulSpace self.now }
    {
        self.store.used()
    }

    /// Whether something is saved in a slot. Nothing is past the last one.
    pub fn is_saved(&self, slot: u32) -> bool
        ensures saved { result ≡ is_some (slot_at self.now.store slot) }
        ensures empty { OnFalse result (slot_at self.now.store slot ≡ None) }
        ensures lawful { IsLawfulSpace self.now }
    {
        self.store.is_saved(slot)
    }

    // Whether each of so many bytes may be touched so.
    #[inline(always)]
    fn permits(&self, flag: u32, at: u32, len: u32) -> bool
        requires { 0 < flag }
        ensures { result ≡ permitted flag (flat self.now) at len }
    {
        if u64::from(at) + u64::from(len) > ADDRESSES {
            return false;
        }
        are_held(&self.spans, flag, at, len)
    }

    // The number of at most four bytes, the lowest first.
    #[inline(always)]
    fn number_at(&self, flag: u32, at: u32, size: u32) -> Result<u32, BadAccess>
        requires kind { 0 < flag }
        requires small { size ≤ 4 }
        ensures value { Reads flag (flat self.now) at size result }
        ensures few { IfOk result (λ value. value < 2 ^ (8 * size)) }
    {
        if size == 0 {
            return self.number_of_each(flag, at, size);
        }
        if !one_has(&self.spans, flag, at, size) {
            return self.number_of_each(flag, at, size);
        }
        match self.number_in_page(flag, at, size) {
            Some(value) => Ok(value),
            None => self.number_of_each(flag, at, size),
        }
    }

    // Whether the four bytes from an address on may be touched so, by a stretch, which is moved there where it doesn't have
    // the address.
    #[inline(always)]
    fn reaches(&self, flag: u32, stretch: &mut Stretch, at: u32) -> bool
        requires kind { 0 < flag }
        requires holds { IsOpen flag self.now.spans stretch.old }
        ensures holds { IsOpen flag self.now.spans stretch.new }
        ensures held { OnTrue result (AreHeld flag self.now.spans at 4) }
    {
        let _base = self.base;
        if stretch.has(at) {
            return true;
        }
        *stretch = stretch_at(&self.spans, flag, at);
        stretch.has(at)
    }

    // The word at a multiple of 4, which lies in one page.
    #[inline(always)]
    fn whole_word(&self, at: u32) -> u32
        requires base { self.now.base % 4 ≡ 0 }
        requires whole { at % 4 ≡ 0 }
        requires held { AreHeld 1 self.now.spans at 4 }
        ensures { Reads 1 (flat self.now) at 4 (Ok result) }
    {
        self.store.word_at(at - self.base)
    }

    // The number of one, two or four bytes that lie in one page.
    #[inline(always)]
    fn number_in_page(&self, flag: u32, at: u32, size: u32) -> Option<u32>
        requires some { 0 < size }
        requires small { size ≤ 4 }
        requires held { AreHeld flag self.now.spans at size }
        ensures value { IfSome result (λ value. Reads flag (flat self.now) at size (Ok value)) }
        ensures few { IfSome result (λ value. value < 2 ^ (8 * size)) }
    {
        let place = at - self.base;
        if place % PAGE + size > PAGE {
            return None;
        }
        match size {
            1 => Some(u32::from(self.store.byte_at(place))),
            2 => Some(u32::from(self.store.half_at(place))),
            4 => Some(self.store.word_at(place)),
            _ => None,
        }
    }

    // The number of at most four bytes, wherever they lie.
    #[cold]
    #[inline(never)]
    fn number_of_each(&self, flag: u32, at: u32, size: u32) -> Result<u32, BadAccess>
        requires kind { 0 < flag }
        requires small { size ≤ 4 }
        ensures value { Reads flag (flat self.now) at size result }
        ensures few { IfOk result (λ value. value < 2 ^ (8 * size)) }
    {
        if !self.permits(flag, at, size) {
            return Err(BadAccess);
        }
        if size == 0 {
            return Ok(0);
        }
        let mut bytes = [0; 4];
        let part = &mut bytes[..size as usize];
        self.store.read_run(at - self.base, part);
        Ok(number_of(part))
    }

    // Puts one, two or four bytes of a number that lie in one page. Else nothing changed.
    #[inline(always)]
    fn put_number(&mut self, at: u32, size: u32, value: u32) -> bool
        requires small { size ≤ 4 }
        requires held { AreHeld 2 self.old.spans at size }
        ensures { MatchBool result ((permitted 2 (flat self.old) at size ≡ true) × Puts self.old at (little_bytes size value) self.new) (self.new ≡ self.old) }
    {
        if size == 0 {
            return false;
        }
        let place = at - self.base;
        if place % PAGE + size > PAGE {
            return false;
        }
        match size {
            1 => {
                self.store.put_byte(place, (value % 256) as u8);
                true
            }
            2 => {
                self.store.put_half(place, (value % 65536) as u16);
                true
            }
            4 => {
                self.store.put_word(place, value);
                true
            }
            _ => false,
        }
    }

    // The window of the addresses of one page around one of a stretch; of none where it is too near the page's end.
    #[inline(always)]
    fn window_in(&self, flag: u32, stretch: Stretch, at: u32) -> Window
        requires open { IsOpen flag self.now.spans stretch }
        requires has { IsIn stretch at }
        ensures window { IsWindow flag self.now.base self.now.spans self.now.store result }
        ensures page { IsOfPage self.now at result }
    {
        let _flag = flag;
        let near = at - self.base;
        let offset = near % PAGE;
        if offset + 4 > PAGE {
            return Window::none();
        }
        let back = offset.min(at - stretch.start);
        let room = PAGE - 3 - (offset - back);
        let held = stretch.count - (at - back - stretch.start);
        Window {
            start: at - back,
            count: room.min(held),
            place: self.store.place(near) - back,
        }
    }

    // Moves the window of a register for loads to an address, where one was found of late, and says whether it has it then.
    #[cold]
    #[inline(never)]
    fn finds_elsewhere(&self, windows: &mut Windows, register: u8, at: u32) -> bool
        requires register { register < 32 }
        requires holds { AreWindows self.now windows.old }
        ensures holds { AreWindows self.now windows.new }
        ensures has { OnTrue result (HasAddress (load_window windows.new register) at) }
    {
        let recent = windows.loads.of(recent_of(at));
        if !recent.has(at) {
            return self.finds_anew(windows, register, at);
        }
        windows.loads.set(register, recent);
        true
    }

    // The same by a look at the spans.
    #[cold]
    #[inline(never)]
    fn finds_anew(&self, windows: &mut Windows, register: u8, at: u32) -> bool
        requires register { register < 32 }
        requires holds { AreWindows self.now windows.old }
        ensures holds { AreWindows self.now windows.new }
        ensures has { OnTrue result (HasAddress (load_window windows.new register) at) }
    {
        let Some(stretch) = stretch_of(&self.spans, READ, at) else {
            return false;
        };
        let window = self.window_in(READ, stretch, at);
        windows.loads.set(register, window);
        windows.loads.set(recent_of(at), window);
        window.has(at)
    }

    // The number of one, two or four bytes from a place on.
    #[inline(always)]
    fn number_from(&self, at: u32, size: u32, place: usize) -> Option<u32>
        requires some { 0 < size }
        requires small { size ≤ 4 }
        requires held { AreHeld 4 self.now.spans at 4 }
        requires stands { StandsAt self.now.store (at - self.now.base) 4 place }
        ensures value { IfSome result (λ value. Reads 4 (flat self.now) at size (Ok value)) }
        ensures few { IfSome result (λ value. value < 2 ^ (8 * size)) }
    {
        let near = at - self.base;
        match size {
            1 => Some(u32::from(self.store.byte_from(near, place))),
            2 => Some(u32::from(self.store.half_from(near, place))),
            4 => Some(self.store.word_from(near, place)),
            _ => None,
        }
    }

    // Puts one, two or four bytes of a number, to whose address the window of a register is moved. Else nothing changed.
    #[cold]
    #[inline(never)]
    fn store_elsewhere(
        &mut self,
        windows: &mut Windows,
        register: u8,
        at: u32,
        size: u32,
        value: u32,
    ) -> bool
        requires register { register < 32 }
        requires small { size ≤ 4 }
        requires holds { AreWindows self.old windows.old }
        ensures holds { AreWindows self.new windows.new }
        ensures stored { MatchBool result ((permitted 2 (flat self.old) at size ≡ true) × Puts self.old at (little_bytes size value) self.new) (self.new ≡ self.old) }
    {
        let recent = windows.stores.of(recent_of(at));
        if !recent.has(at) {
            return self.store_anew(windows, register, at, size, value);
        }
        windows.stores.set(register, recent);
        self.put_from(
            at,
            size,
            value,
            (recent.place + (at - recent.start)) as usize,
        )
    }

    // The same by a look at the spans. Where the page was moved to another frame, the windows of loads go with it.
    #[cold]
    #[inline(never)]
    fn store_anew(
        &mut self,
        windows: &mut Windows,
        register: u8,
        at: u32,
        size: u32,
        value: u32,
    ) -> bool
        requires register { register < 32 }
        requires small { size ≤ 4 }
        requires holds { AreWindows self.old windows.old }
        ensures holds { AreWindows self.new windows.new }
        ensures stored { MatchBool result ((permitted 2 (flat self.old) at size ≡ true) × Puts self.old at (little_bytes size value) self.new) (self.new ≡ self.old) }
    {
        let Some(stretch) = stretch_of(&self.spans, WRITE, at) else {
            return false;
        };
        let near = at - self.base;
        let offset = near % PAGE;
        if size == 0 {
            return false;
        }
        if offset + size > PAGE {
            return false;
        }
        let before = self.store.place(near);
        if !self.put_number(at, size, value) {
            return false;
        }
        windows.follow(before - offset, self.store.place(near) - offset);
        let window = self.window_in(WRITE, stretch, at);
        windows.stores.set(register, window);
        windows.stores.set(recent_of(at), window);
        true
    }

    // Puts one, two or four bytes of a number that stand from a place on, in a frame that no slot has. Else nothing changed.
    #[inline(always)]
    fn put_from(&mut self, at: u32, size: u32, value: u32, place: usize) -> bool
        requires small { size ≤ 4 }
        requires held { AreHeld 2 self.old.spans at 4 }
        requires stands { StandsAt self.old.store (at - self.old.base) 4 place }
        requires own { is_shared self.old.store ((at - self.old.base) / PAGE) ≡ false }
        ensures stored { MatchBool result ((permitted 2 (flat self.old) at size ≡ true) × Puts self.old at (little_bytes size value) self.new) (self.new ≡ self.old) }
        ensures numbers { self.new.store.live.numbers ≡ self.old.store.live.numbers }
    {
        let near = at - self.base;
        match size {
            1 => {
                self.store.put_byte_from(near, place, (value % 256) as u8);
                true
            }
            2 => {
                self.store
                    .put_half_from(near, place, (value % 65536) as u16);
                true
            }
            4 => {
                self.store.put_word_from(near, place, value);
                true
            }
            _ => false,
        }
    }

    // Puts at most four bytes of a number, wherever they lie.
    #[cold]
    #[inline(never)]
    fn store_each(&mut self, at: u32, size: u32, value: u32) -> Result<(), BadAccess>
        requires { size ≤ 4 }
        ensures { Stores self.old at (little_bytes size value) result self.new }
    {
        let first = (value % 256) as u8;
        let second = (value / 256 % 256) as u8;
        let third = (value / 256 / 256 % 256) as u8;
        let fourth = (value / 256 / 256 / 256 % 256) as u8;
        match size {
            0 => self.store_bytes(at, &[]),
            1 => self.store_bytes(at, &[first]),
            2 => self.store_bytes(at, &[first, second]),
            3 => self.store_bytes(at, &[first, second, third]),
            _ => self.store_bytes(at, &[first, second, third, fourth]),
        }
    }

    // Puts at most four bytes from an address on, where they may be written.
    fn store_bytes(&mut self, at: u32, bytes: &[u8]) -> Result<(), BadAccess>
        requires { length bytes.now ≤ 4 }
        ensures { Stores self.old at bytes.now result self.new }
    {
        if !self.permits(WRITE, at, bytes.len() as u32) {
            return Err(BadAccess);
        }
        self.write_bytes(at, bytes);
        Ok(())
    }
}
