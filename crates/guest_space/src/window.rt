// Addresses whose bytes are found without the tables of pages.
ghost use Rattle.std.specs.Prelude.{◌≡◌, ◌==◌, ℕ, ◌+◌, ◌%◌, ◌^◌, ◌≤◌, ◌<◌, List, length, slice_index, if◌then◌else◌};
ghost use Rattle.std.specs.Bool.{OnTrue};
ghost use Rattle.cow_pages.specs.Pages.{Pages};
ghost use Rattle.guest_space.specs.Space.{GuestPages, Span};
ghost use Rattle.guest_space.specs.Windows.{IsWindow, IsStoreWindow, IsLoadWindow, EachIs, window_of, AreWindows, followed, WritesPage};

use cow_pages::PAGE;

/// Addresses of one page from each of which on four bytes may be touched in one way: so many, from a start on. The byte at the first
/// stands at a place among the bytes of all frames, and the others behind it.
#[derive(Clone, Copy, Debug)]
pub struct Window {
    pub start: u32,
    pub count: u32,
    pub place: u32,
}

impl Window {
    /// The window of no address.
    #[inline(always)]
    pub fn none() -> Window
        ensures none { result.count ≡ 0 }
        ensures any { (flag base : ℕ) (spans : List Span) (store : Pages) → IsWindow flag base spans store result }
        ensures stores { (space : GuestPages) → IsStoreWindow space result }
    {
        Window {
            start: 0,
            count: 0,
            place: 0,
        }
    }

    /// Whether an address is one of it.
    #[inline(always)]
    pub fn has(&self, at: u32) -> bool
        requires { self.now.start + self.now.count ≤ 2 ^ 32 }
        ensures { OnTrue result ((self.now.start ≤ at) × (at < self.now.start + self.now.count)) }
    {
        at.wrapping_sub(self.start) < self.count
    }
}

/// Where a place goes where the frame that begins at one place was copied to the one that begins at another.
#[inline(always)]
fn place_after(from: u32, to: u32, place: u32) -> u32
    requires from { from % PAGE ≡ 0 }
    requires to { to + PAGE ≤ 2 ^ 32 }
    ensures { result ≡ followed from to place }
{
    let by = to.wrapping_sub(from);
    place.wrapping_add(if place / PAGE == from / PAGE { by } else { 0 })
}

/// The places of a list go with the frame that was copied.
fn follow_places(places: &mut [u32], from: u32, to: u32)
    requires from { from % PAGE ≡ 0 }
    requires to { to + PAGE ≤ 2 ^ 32 }
    ensures { (k : ℕ) → k < length places.old → slice_index places.new k ≡ followed from to (slice_index places.old k) }
{
    'places: for place in places.iter_mut() {
        *place = place_after(from, to, *place);
    }
}

/// Which of the windows behind those of registers is that of the page of an address.
#[inline(always)]
pub fn recent_of(at: u32) -> u8
    ensures { result < 40 }
{
    32 + (at / PAGE % 8) as u8
}

/// A window for each register, and behind them eight that were found of late for any of them, each at the number of its page modulo 8.
/// Each part of them is a list of its own, so that one index finds it in all three.
#[derive(Clone, Copy)]
pub struct RegisterWindows {
    starts: [u32; 40],
    counts: [u32; 40],
    places: [u32; 40],
}

impl RegisterWindows {
    /// Windows of no address.
    #[inline(always)]
    pub fn none() -> RegisterWindows
        ensures loads { (space : GuestPages) → EachIs (IsLoadWindow space) result }
        ensures stores { (space : GuestPages) → EachIs (IsStoreWindow space) result }
    {
        RegisterWindows {
            starts: [0; 40],
            counts: [0; 40],
            places: [0; 40],
        }
    }

    /// The window of a register, or one of those behind them.
    #[inline(always)]
    pub fn of(&self, register: u8) -> Window
        requires { register < 40 }
        ensures { result ≡ window_of self.now register }
    {
        Window {
            start: self.starts[register as usize],
            count: self.counts[register as usize],
            place: self.places[register as usize],
        }
    }

    /// Makes a window that of a register, or one of those behind them.
    #[inline(always)]
    pub fn set(&mut self, register: u8, window: Window)
        requires { register < 40 }
        ensures { (other : ℕ) → window_of self.new other ≡ (if other == register then window else window_of self.old other) }
    {
        self.starts[register as usize] = window.start;
        self.counts[register as usize] = window.count;
        self.places[register as usize] = window.place;
    }
}

/// For each register where loads and stores with it as their base were last: the next ones mostly are there too.
#[derive(Clone, Copy)]
pub struct Windows {
    pub loads: RegisterWindows,
    pub stores: RegisterWindows,
}

impl Windows {
    /// Windows of no address.
    #[inline(always)]
    pub fn none() -> Windows
        ensures { (space : GuestPages) → AreWindows space result }
    {
        Windows {
            loads: RegisterWindows::none(),
            stores: RegisterWindows::none(),
        }
    }

    /// Forgets all of them.
    #[inline(never)]
    pub fn forget(&mut self)
        ensures { (space : GuestPages) → AreWindows space self.new }
    {
        *self = Windows::none();
    }

    /// Those of loads go with a page whose frame began at one place, and begins at another one now.
    #[inline(never)]
    pub fn follow(&mut self, from: u32, to: u32)
        requires from { from % PAGE ≡ 0 }
        requires to { to + PAGE ≤ 2 ^ 32 }
        ensures { (old new : GuestPages) (at : ℕ) (bytes : List ℕ) → WritesPage old at bytes new from to → AreWindows old self.old → AreWindows new self.new }
    {
        if from == to {
            return;
        }
        follow_places(&mut self.loads.places, from, to);
    }

    /// Forgets those of loads.
    #[inline(never)]
    pub fn forget_loads(&mut self)
        ensures loads { (space : GuestPages) → EachIs (IsLoadWindow space) self.new.loads }
        ensures stores { self.new.stores ≡ self.old.stores }
    {
        self.loads = RegisterWindows::none();
    }

    /// Forgets those of stores.
    #[inline(never)]
    pub fn forget_stores(&mut self)
        ensures loads { self.new.loads ≡ self.old.loads }
        ensures stores { (space : GuestPages) → EachIs (IsStoreWindow space) self.new.stores }
    {
        self.stores = RegisterWindows::none();
    }
}
