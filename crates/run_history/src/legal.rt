// Which answers of the allocator ISO C allows.
ghost use Rattle.std.specs.Prelude.{◌≡◌, ◌+◌, ◌&&◌, ◌||◌, ◌==◌, true};
ghost use Rattle.block_book.specs.Block.{is_apart, lies_in};
ghost use Rattle.block_book.specs.Heap.{is_bare};
ghost use Rattle.block_book.specs.Answer.{bytes_asked, is_allowed, is_block, is_clear, is_defined, kept_count, live_blocks, may_carry, replaced};

use block_book::{Ask, Book, Choice};

/// Whether ISO C 7.22.3 allows this answer to an ask, by the blocks that stand: it is one to that ask, and null that isn't zeroed; or an
/// address that is a multiple of 16, of a block that lies in the heap, is disjoint from every live one, and is zeroed where calloc asked.
/// Where it carries bytes, it changes none of a live block by them. No padded and no delayed block stands.
#[tactic(auto, unfolding(block_book::specs::Answer::is_allowed))]
pub fn legal_choice(choice: Choice, book: &Book, wanted: Ask) -> bool
    requires { is_bare book.now ≡ true }
    ensures { result ≡ is_allowed book.now.start book.now.end (live_blocks book.now.blocks) wanted choice }
{
    choice.ask.is(wanted)
        && ((choice.at == 0 && !choice.zeroed && choice.carried == 0)
            || is_legal_block(choice, book))
}

// Whether an answer that isn't null is one that C allows to its ask.
#[tactic(auto, unfolding(block_book::specs::Answer::is_block))]
fn is_legal_block(choice: Choice, book: &Book) -> bool
    ensures { result ≡ is_block book.now.start book.now.end (live_blocks book.now.blocks) choice }
{
    book.sound();
    match choice.ask.bytes() {
        Some(size) => book.clear_of_live(choice.at, size)
            && (choice.zeroed || !choice.ask.is_calloc())
            && carries_rightly(choice, book),
        None => false,
    }
}

// Whether an answer carries nothing, or may carry what it does.
#[tactic(auto, unfolding(block_book::specs::Answer::may_carry))]
fn carries_rightly(choice: Choice, book: &Book) -> bool
    ensures { result ≡ ((choice.carried == 0) || may_carry book.now.start book.now.end (live_blocks book.now.blocks) choice (replaced choice.ask)) }
{
    book.sound();
    if choice.carried == 0 {
        return true;
    }
    let Ask::Realloc { old, size } = choice.ask else {
        return false;
    };
    if old == 0 {
        return false;
    }
    let Some(count) = book.kept(old, size).checked_add(choice.carried) else {
        return false;
    };
    may_come(book, old, choice.at, count)
}

// Whether so many bytes lie in the heap at one address, from where they come, and are clear of all live blocks and of the first ones at
// another, to where they go.
fn may_come(book: &Book, old: u32, at: u32, count: u32) -> bool
    ensures { result ≡ (lies_in old count book.now.start book.now.end && is_clear book.now.start book.now.end (live_blocks book.now.blocks) at count && is_apart old count at (at + count)) }
{
    let start = book.start();
    let end = u64::from(book.end());
    let behind = u64::from(old) + u64::from(count);
    if old < start || behind > end {
        return false;
    }
    if !book.clear_of_live(at, count) {
        return false;
    }
    behind <= u64::from(at) || u64::from(at) + u64::from(count) <= u64::from(old)
}

/// Whether C defines an ask: realloc's old address is null, or that of a live block.
pub fn may_ask(ask: Ask, book: &Book) -> bool
    ensures { result ≡ is_defined (live_blocks book.now.blocks) ask }
{
    let Ask::Realloc { old, size: _ } = ask else {
        return true;
    };
    if old == 0 {
        return true;
    }
    book.live_size(old).is_some()
}

/// How many bytes a new block gets from the one that it replaces: as many as both have.
pub fn kept_count(ask: Ask, book: &Book) -> u32
    ensures { result ≡ kept_count (live_blocks book.now.blocks) (bytes_asked ask) (replaced ask) }
{
    let Ask::Realloc { old, size } = ask else {
        return 0;
    };
    if old == 0 {
        return 0;
    }
    book.kept(old, size)
}
