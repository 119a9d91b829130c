// An ask that is answered as recorded.
ghost use Rattle.std.specs.Prelude.{◌≡◌, ◌==◌, ◌||◌, MatchBool, true, length, nat_lt};
ghost use Rattle.block_book.specs.Heap.{is_bare, most_blocks, SameEnds};
ghost use Rattle.block_book.specs.Answer.{is_allowed, live_blocks, live_with, replaced};
ghost use Rattle.guest_space.specs.Space.{flat};
ghost use Rattle.guest_cpu.specs.Standing.{standing, CanCount, set_range};
ghost use Rattle.guest_cpu.specs.Turns.{Wrote, Keeps, HasHeap};
ghost use Rattle.guest_cpu.specs.Recording.{is_usable, released_over, heap_with, chosen_standing};

use crate::guest_core::Core;
use crate::placing::set_block;
use block_book::{Ask, Book, Choice, Site};
use guest_space::GuestSpace;
use run_history::{kept_count, legal_choice};

/// The allocator answers an ask so, where the answer can be used: it is one to that ask, C allows it, and the block has room
/// among those that stand. Else nothing changes.
pub fn choose(core: &mut Core, space: &mut GuestSpace, wanted: Ask, choice: Choice) -> bool
    requires heap { HasHeap core.old space.old }
    requires bare { is_bare core.old.book ≡ true }
    requires counts { CanCount core.old.marks }
    ensures usable { result ≡ is_usable (standing core.old (flat space.old)) wanted choice }
    ensures done { MatchBool result (standing core.new (flat space.new) ≡ chosen_standing choice (standing core.old (flat space.old))) (core.new ≡ core.old) }
    ensures wrote { MatchBool result (Wrote (set_range (live_blocks core.old.book.blocks) choice) space.old space.new) (space.new ≡ space.old) }
    ensures keeps { Keeps core.old core.new }
    ensures bare { is_bare core.new.book ≡ true }
{
    if !legal_choice(choice, &core.book, wanted) {
        return false;
    }
    core.book.sound();
    let kept = kept_count(choice.ask, &core.book);
    let site = core.site();
    if !place(&mut core.book, site, choice) {
        return false;
    }
    set_block(space, choice, kept);
    core.answer(choice.at);
    core.marks.choices += 1;
    true
}

// Puts the block of an answer that C allows, which was asked for at a site, in place of the one that it replaces, unless it is null. False, and nothing
// changes, where as many stand as may.
fn place(book: &mut Book, site: Site, choice: Choice) -> bool
    requires bare { is_bare book.old ≡ true }
    requires allowed { is_allowed book.old.start book.old.end (live_blocks book.old.blocks) choice.ask choice ≡ true }
    ensures answer { result ≡ ((choice.at == 0) || nat_lt (length book.old.blocks) most_blocks) }
    ensures heap { MatchBool result (book.new ≡ heap_with choice site book.old) (book.new ≡ book.old) }
    ensures live { result ≡ true → live_blocks book.new.blocks ≡ live_with choice (live_blocks book.old.blocks) }
    ensures bare { is_bare book.new ≡ true }
    ensures ends { SameEnds book.old book.new }
{
    book.sound();
    if choice.at == 0 {
        return true;
    }
    let Some(size) = choice.ask.bytes() else {
        unreachable!()
    };
    if !book.put(choice.at, size, site) {
        return false;
    }
    release_over(book, site, choice.ask);
    true
}

// Frees the live block that an ask replaces, if there is one.
fn release_over(book: &mut Book, site: Site, ask: Ask)
    requires bare { is_bare book.old ≡ true }
    ensures heap { book.new ≡ released_over (replaced ask) site book.old }
    ensures bare { is_bare book.new ≡ true }
    ensures ends { SameEnds book.old book.new }
{
    let Ask::Realloc { old, size: _ } = ask else {
        return;
    };
    if old == 0 {
        return;
    }
    let _was_live = book.release(old, site);
}
