// The answers of the allocator in an environment.
ghost use Rattle.std.specs.Prelude.{◌≡◌, ◌||◌, ◌<◌, ◌^◌, true, Some, OnOk, IfOk, MatchOption};
ghost use Rattle.block_book.specs.declared.choice.Ask.TheVariants.{Malloc, Calloc, Realloc};
ghost use Rattle.block_book.specs.Block.{live_block};
ghost use Rattle.block_book.specs.Heap.{IsHeap, SameEnds, with_block, is_live_at};
ghost use Rattle.block_book.specs.Answer.{live_blocks, is_allowed, is_calloc, without_live, live_with};
ghost use Rattle.alloc_env.specs.Treatment.{treatment_of};
ghost use Rattle.alloc_env.specs.Serving.{middle, spot, served_block, served_ask, carried_over, in_place_of, freed, Answers, Frees};

use crate::bad_free::BadFree;
use crate::env::Env;
use block_book::{Ask, Book, Choice, Site, Standing, reserved_size};

/// The answer to an ask of a program that stands at a site, in an environment, by the three calls below.
pub fn serve_ask(env: Env, book: &mut Book, site: Site, ask: Ask) -> Result<Choice, BadFree>
    ensures answer { Answers env site ask book.old book.new result }
    ensures allowed { IfOk result (λ choice. is_allowed book.old.start book.old.end (live_blocks book.old.blocks) ask choice ≡ true) }
    ensures live { IfOk result (λ choice. live_blocks book.new.blocks ≡ live_with choice (live_blocks book.old.blocks)) }
    ensures ends { SameEnds book.old book.new }
{
    match ask {
        Ask::Malloc { size } => Ok(serve_malloc(env, book, site, size)),
        Ask::Calloc { count, size } => Ok(serve_calloc(env, book, site, count, size)),
        Ask::Realloc { old, size } => serve_realloc(env, book, site, old, size),
    }
}

/// The answer of malloc to a size, in an environment. Where the block goes nowhere all delayed blocks are recycled, and it is tried
/// once more; where it goes nowhere then either, the answer is null.
pub fn serve_malloc(env: Env, book: &mut Book, site: Site, size: u32) -> Choice
    ensures answer { served_ask env book.old site (Malloc size) ≡ Some (record { choice = result; heap = book.new }) }

    // ISO C allows each answer, and the block is live then.
    ensures allowed { is_allowed book.old.start book.old.end (live_blocks book.old.blocks) (Malloc size) result ≡ true }
    ensures live { live_blocks book.new.blocks ≡ live_with result (live_blocks book.old.blocks) }
    ensures ends { SameEnds book.old book.new }
{
    new_block(env, book, site, Ask::Malloc { size })
}

/// The answer of calloc to a count of elements of a size, as that of malloc to their bytes; the block is zeroed in every environment. Where
/// they are more than 4,294,967,295 the answer is null, and nothing is recycled.
pub fn serve_calloc(env: Env, book: &mut Book, site: Site, count: u32, size: u32) -> Choice
    ensures answer { served_ask env book.old site (Calloc count size) ≡ Some (record { choice = result; heap = book.new }) }

    // ISO C allows each answer, and the block is live then.
    ensures allowed { is_allowed book.old.start book.old.end (live_blocks book.old.blocks) (Calloc count size) result ≡ true }
    ensures live { live_blocks book.new.blocks ≡ live_with result (live_blocks book.old.blocks) }
    ensures ends { SameEnds book.old book.new }
{
    new_block(env, book, site, Ask::Calloc { count, size })
}

/// The answer of realloc to an address and a size, in an environment. Of null it is that of malloc. Else the new block is placed as by
/// malloc while the old one stands, which is freed then, unless the answer is null. An environment that pads brings the bytes behind the
/// old one too, as far as both extents reach. An address at which no live block stands is bad, and nothing changed.
pub fn serve_realloc(
    env: Env,
    book: &mut Book,
    site: Site,
    old: u32,
    size: u32,
) -> Result<Choice, BadFree>
    ensures answer { Answers env site (Realloc old size) book.old book.new result }

    // ISO C allows each answer; the block is live then, and the old one isn't.
    ensures allowed { IfOk result (λ choice. is_allowed book.old.start book.old.end (live_blocks book.old.blocks) (Realloc old size) choice ≡ true) }
    ensures live { IfOk result (λ choice. live_blocks book.new.blocks ≡ live_with choice (live_blocks book.old.blocks)) }
    ensures ends { SameEnds book.old book.new }
{
    let ask = Ask::Realloc { old, size };
    if old == 0 {
        return Ok(new_block(env, book, site, ask));
    }
    if !is_live(book, old) {
        return Err(BadFree);
    }
    Ok(block_in_place(env, book, site, ask, old, size))
}

/// Frees the block at an address, in an environment. Free of null does nothing, and so does free of a delayed block where the
/// environment delays. Every other free of an address at which no live block stands is bad, and nothing changed.
pub fn serve_free(env: Env, book: &mut Book, site: Site, at: u32) -> Result<(), BadFree>
    ensures freed { Frees env site at book.old book.new result }
    ensures live { OnOk result (live_blocks book.new.blocks ≡ without_live at (live_blocks book.old.blocks)) }
    ensures ends { SameEnds book.old book.new }
{
    book.sound();
    if at == 0 {
        return Ok(());
    }
    match book.find(at) {
        Standing::Nothing => Err(BadFree),
        Standing::Live(_) => {
            free_live(env, book, site, at);
            Ok(())
        }
        Standing::Delayed(_) => {
            if env.treatment().delays {
                Ok(())
            } else {
                Err(BadFree)
            }
        }
    }
}

// The middle of a heap.
fn middle(book: &Book) -> u32
    ensures { result ≡ middle book.now }
{
    book.sound();
    book.start() + (book.end() - book.start()) / 2
}

// Adds a block where it goes, if it goes anywhere.
fn place_by(env: Env, book: &mut Book, site: Site, size: u32) -> Option<u32>
    ensures answer { result ≡ spot env book.old size }
    ensures placed { MatchOption result (book.new ≡ book.old) (λ at. book.new ≡ with_block book.old (live_block at size (treatment_of env).side site)) }
    ensures ends { SameEnds book.old book.new }
{
    let treatment = env.treatment();
    if !treatment.isolates {
        return book.place(size, treatment.side, 0, site);
    }
    let from = middle(book);
    match book.place(size, treatment.side, from, site) {
        Some(at) => Some(at),
        None => book.place(size, treatment.side, 0, site),
    }
}

// Frees or delays a live block.
fn free_live(env: Env, book: &mut Book, site: Site, at: u32)
    requires { is_live_at book.old at ≡ true }
    ensures freed { book.new ≡ freed env book.old site at }
    ensures ends { SameEnds book.old book.new }
{
    let _freed = if env.treatment().delays {
        book.delay(at, site)
    } else {
        book.release(at, site)
    };
}

// Whether a live block stands at an address.
fn is_live(book: &Book, at: u32) -> bool
    ensures { result ≡ is_live_at book.now at }
{
    book.sound();
    match book.find(at) {
        Standing::Live(_) => true,
        Standing::Delayed(_) => false,
        Standing::Nothing => false,
    }
}

// Whether the bytes of a new block are to be set to 0.
fn zeroes(env: Env, ask: Ask) -> bool
    ensures { result ≡ ((treatment_of env).zeroes || is_calloc ask) }
{
    env.treatment().zeroes || ask.is_calloc()
}

// The answer to an ask as a new block, whatever it is to replace.
fn new_block(env: Env, book: &mut Book, site: Site, ask: Ask) -> Choice
    ensures answer { served_block env book.old site ask ≡ record { choice = result; heap = book.new } }
    ensures heap { IsHeap book.old }
    ensures ends { SameEnds book.old book.new }
{
    book.sound();
    let null = Choice {
        ask,
        at: 0,
        zeroed: false,
        carried: 0,
    };
    let Some(size) = ask.bytes() else {
        return null;
    };
    let zeroed = zeroes(env, ask);
    if let Some(at) = place_by(env, book, site, size) {
        return Choice { at, zeroed, ..null };
    }
    book.recycle();
    match place_by(env, book, site, size) {
        Some(at) => Choice { at, zeroed, ..null },
        None => null,
    }
}

// How many bytes an answer carries behind those that a live block and a new one of a size in its place have both.
fn carried_over(env: Env, book: &Book, old: u32, size: u32) -> u32
    ensures { result ≡ carried_over env book.now old size }
{
    book.sound();
    let side = env.treatment().side;
    if side == 0 {
        return 0;
    }
    let reach = book.live_reach(old).unwrap_or(0);
    let brought = reach.min(reserved_size(size) + u64::from(side));
    brought.saturating_sub(u64::from(book.kept(old, size))) as u32
}

// The answer to an ask as a new block of a size, in place of a live one.
fn block_in_place(env: Env, book: &mut Book, site: Site, ask: Ask, old: u32, size: u32) -> Choice
    requires { is_live_at book.old old ≡ true }
    ensures answer { in_place_of env book.old site old size (served_block env book.old site ask) ≡ record { choice = result; heap = book.new } }
    ensures heap { IsHeap book.old }
    ensures ends { SameEnds book.old book.new }
{
    let carried = carried_over(env, book, old, size);
    let choice = new_block(env, book, site, ask);
    if choice.at == 0 {
        return choice;
    }
    free_live(env, book, site, old);
    Choice { carried, ..choice }
}
