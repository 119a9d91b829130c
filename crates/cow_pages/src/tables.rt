// Walks over a table of frames, which change counts and free frames.
ghost use Rattle.std.specs.Prelude.{◌≡◌, ◌≢◌, ℕ, ◌+◌, ◌-◌, ◌*◌, ◌^◌, ◌<◌, ◌≤◌, List, [], ◌∷◌, ◌++◌, length, true, nat_lt, if◌then◌else◌, slice_index, slice_set, vec_capacity, IfOk};
ghost use Rattle.cow_pages.specs.Pool.{IsStack, IsRow, CanCount, CanUncount, CanGiveUp, IsRenewed, Recounts, AreInOrder, AreInside, IsLoggedSince, StandFrom, SameUpTo, StaySame};

use crate::moves::{Moves, RECENT};
use std::alloc::{AllocError, Global};

// The numbers from one up to another, with room for so many.
pub fn row(alloc: Global, room: u32, start: u32, end: u32) -> Result<Vec<u32>, AllocError>
    requires { start ≤ end }
    ensures row { IfOk result (λ v. IsRow start end v.items) }
    ensures room { IfOk result (λ v. room ≤ vec_capacity v) }
{
    let mut numbers = Vec::with_capacity(alloc, room as usize)?;
    'numbers: for number in start..end {
        numbers.push(number)?;
    }
    Ok(numbers)
}

// Counts each number of a table once more. The answer says how many of them had no count.
pub fn count_table(counts: &mut [u8], table: &[u32]) -> u32
    requires fits { CanCount counts.old table.now }
    requires short { length table.now < 2 ^ 32 }
    ensures { Recounts counts.old [] counts.new table.now result 0 }
{
    let mut added = 0;
    'entries: for number in table {
        let count = counts[*number as usize];
        if count == 0 {
            added += 1;
        }
        counts[*number as usize] = count + 1;
    }
    added
}

// Counts each number of a table once less, and gives back the frames that then have no count and
// aren't in the live table. The answer says how many have no count.
pub fn uncount_table(counts: &mut [u8], table: &[u32], live: &[u32], free: &mut Vec<u32>) -> u32
    requires fits { CanUncount counts.old table.now live.now free.old.items }
    requires reserved { length counts.old ≤ vec_capacity free.old }
    requires short { length table.now < 2 ^ 32 }
    ensures counts { Recounts counts.old table.now counts.new [] 0 result }
    ensures stack { IsStack counts.new live.now free.new.items }
    ensures reserved { vec_capacity free.new ≡ vec_capacity free.old }
{
    let mut removed = 0;
    'entries: for (k, number) in table.iter().enumerate() {
        let count = counts[*number as usize] - 1;
        counts[*number as usize] = count;
        if count == 0 {
            removed += 1;
            if live[k] != *number {
                free.push_reserved(*number);
            }
        }
    }
    removed
}

// How many entries of two tables are compared at a time.
const BLOCK: usize = 16;

// How many frames have a count that had none, and how many have none that had one.
#[derive(Clone, Copy, Debug)]
pub struct Recount {
    pub added: u32,
    pub removed: u32,
}

// Makes a table that is counted the live one, and the counts those of it. Frames that then have no count are given back.
// It looks at the entries of the pages that moved since a move, where these are kept, and else at all.
pub fn renew_table(
    counts: &mut [u8],
    table: &mut [u32],
    live: &[u32],
    free: &mut Vec<u32>,
    moves: &Moves,
    seen: u64,
) -> Recount
    requires fits { IsRenewed counts.old table.old live.now free.old.items }
    requires room { (length counts.old ≤ vec_capacity free.old) × (length table.old < 2 ^ 31) }
    requires logged { IsLoggedSince seen moves.now.count moves.now.recent.items table.old live.now }
    ensures table { table.new ≡ live.now }
    ensures counts { Recounts counts.old table.old counts.new live.now result.added result.removed }
    ensures few { result.added < 2 ^ 31 }
    ensures stack { IsStack counts.new live.now free.new.items }
    ensures reserved { vec_capacity free.new ≡ vec_capacity free.old }
{
    if moves.has_all_since(seen) {
        return renew_moved(counts, table, live, free, moves, seen);
    }
    renew_all(counts, table, live, free)
}

// The same by the pages that moved since a move.
fn renew_moved(
    counts: &mut [u8],
    table: &mut [u32],
    live: &[u32],
    free: &mut Vec<u32>,
    moves: &Moves,
    seen: u64,
) -> Recount
    requires fits { IsRenewed counts.old table.old live.now free.old.items }
    requires reserved { length counts.old ≤ vec_capacity free.old }
    requires moves { AreInside (length table.old) moves.now.recent.items }
    requires range { (seen ≤ moves.now.count) × (moves.now.count ≤ seen + RECENT) }
    requires moved { StandFrom seen moves.now.count moves.now.recent.items table.old live.now }
    ensures table { table.new ≡ live.now }
    ensures counts { Recounts counts.old table.old counts.new live.now result.added result.removed }
    ensures few { result.added ≤ RECENT }
    ensures stack { IsStack counts.new live.now free.new.items }
    ensures reserved { vec_capacity free.new ≡ vec_capacity free.old }
{
    let mut added = 0;
    let mut removed = 0;
    let end = moves.count;
    'moves: for n in seen..end {
        let page = moves.recent[(n % RECENT) as usize];
        let entry = renew_entry(counts, table, live, free, page as usize);
        added += entry.added;
        removed += entry.removed;
    }
    Recount { added, removed }
}

// The same by a look at all entries.
fn renew_all(counts: &mut [u8], table: &mut [u32], live: &[u32], free: &mut Vec<u32>) -> Recount
    requires fits { IsRenewed counts.old table.old live.now free.old.items }
    requires reserved { length counts.old ≤ vec_capacity free.old }
    requires short { length table.old < 2 ^ 31 }
    ensures table { table.new ≡ live.now }
    ensures counts { Recounts counts.old table.old counts.new live.now result.added result.removed }
    ensures few { result.added ≤ length table.old }
    ensures stack { IsStack counts.new live.now free.new.items }
    ensures reserved { vec_capacity free.new ≡ vec_capacity free.old }
{
    let mut added = 0;
    let mut removed = 0;
    let mut start = 0;
    'blocks: while table.len() - start >= BLOCK {
        let end = start + BLOCK;
        if !is_same(&table[start..end], &live[start..end]) {
            let block = renew_part(counts, table, live, free, start, end);
            added += block.added;
            removed += block.removed;
        }
        start = end;
    }
    let end = table.len();
    let rest = renew_part(counts, table, live, free, start, end);
    Recount {
        added: added + rest.added,
        removed: removed + rest.removed,
    }
}

// Whether two parts of tables have the same entries. It looks at all, so that several are compared at once.
#[inline(always)]
fn is_same(part: &[u32], other: &[u32]) -> bool
    requires { length other.now ≡ length part.now }
    ensures { result ≡ true → part.now ≡ other.now }
{
    let mut same = true;
    'entries: for k in 0..part.len() {
        same &= part[k] == other[k];
    }
    same
}

// Makes the entries of a table from one place up to another those of the live one, and the counts those of the table.
fn renew_part(
    counts: &mut [u8],
    table: &mut [u32],
    live: &[u32],
    free: &mut Vec<u32>,
    start: usize,
    end: usize,
) -> Recount
    requires fits { IsRenewed counts.old table.old live.now free.old.items }
    requires range { AreInOrder start end (length table.old) }
    requires reserved { length counts.old ≤ vec_capacity free.old }
    requires short { length table.old < 2 ^ 31 }
    ensures renewed { IsRenewed counts.new table.new live.now free.new.items }
    ensures same { SameUpTo start table.old live.now → SameUpTo end table.new live.now }
    ensures counts { Recounts counts.old table.old counts.new table.new result.added result.removed }
    ensures few { (result.added ≤ end - start) × (result.removed ≤ end - start) }
    ensures reserved { vec_capacity free.new ≡ vec_capacity free.old }
{
    let mut added = 0;
    let mut removed = 0;
    'entries: for k in start..end {
        let entry = renew_entry(counts, table, live, free, k);
        added += entry.added;
        removed += entry.removed;
    }
    Recount { added, removed }
}

// Makes an entry of a table that of the live one, and the counts those of the table.
#[inline(always)]
fn renew_entry(
    counts: &mut [u8],
    table: &mut [u32],
    live: &[u32],
    free: &mut Vec<u32>,
    k: usize,
) -> Recount
    requires fits { IsRenewed counts.old table.old live.now free.old.items }
    requires inside { k < length table.old }
    requires reserved { length counts.old ≤ vec_capacity free.old }
    ensures renewed { IsRenewed counts.new table.new live.now free.new.items }
    ensures same { slice_index table.new k ≡ slice_index live.now k }
    ensures kept { StaySame table.old table.new live.now }
    ensures counts { Recounts counts.old table.old counts.new table.new result.added result.removed }
    ensures few { (result.added ≤ 1) × (result.removed ≤ 1) }
    ensures reserved { vec_capacity free.new ≡ vec_capacity free.old }
{
    let frame = live[k];
    let other = table[k];
    if other == frame {
        return Recount {
            added: 0,
            removed: 0,
        };
    }
    let removed = uncount_frame(counts, other, free);
    let added = count_frame(counts, frame);
    table[k] = frame;
    Recount { added, removed }
}

// Counts a frame once more. The answer is 1 where it had no count, and else 0.
#[inline(always)]
fn count_frame(counts: &mut [u8], frame: u32) -> u32
    requires inside { frame < length counts.old }
    requires few { slice_index counts.old frame < 255 }
    ensures counts { counts.new ≡ slice_set counts.old frame (slice_index counts.old frame + 1) }
    ensures added { result ≡ (if nat_lt 0 (slice_index counts.old frame) then 0 else 1) }
{
    let count = counts[frame as usize];
    counts[frame as usize] = count + 1;
    if count > 0 { 0 } else { 1 }
}

// Counts a frame once less, and gives it back where it then has no count. The answer is 1 there, and else 0.
#[inline(always)]
fn uncount_frame(counts: &mut [u8], frame: u32, free: &mut Vec<u32>) -> u32
    requires inside { frame < length counts.old }
    requires some { 0 < slice_index counts.old frame }
    requires reserved { length free.old.items < vec_capacity free.old }
    ensures counts { counts.new ≡ slice_set counts.old frame (slice_index counts.old frame - 1) }
    ensures removed { result ≡ (if nat_lt 0 (slice_index counts.old frame - 1) then 0 else 1) }
    ensures free { free.new.items ≡ (if nat_lt 0 (slice_index counts.old frame - 1) then free.old.items else free.old.items ++ frame ∷ []) }
    ensures reserved { vec_capacity free.new ≡ vec_capacity free.old }
{
    let count = counts[frame as usize] - 1;
    counts[frame as usize] = count;
    if count > 0 {
        return 0;
    }
    free.push_reserved(frame);
    1
}

// Gives back the frames of a live table that have no count.
pub fn give_up(counts: &[u8], live: &[u32], free: &mut Vec<u32>)
    requires fits { CanGiveUp counts.now live.now free.old.items }
    requires reserved { length counts.now ≤ vec_capacity free.old }
    ensures stack { (other : List ℕ) → ((k : ℕ) → k < length other → 0 < slice_index counts.now (slice_index other k)) → IsStack counts.now other free.new.items }
    ensures reserved { vec_capacity free.new ≡ vec_capacity free.old }
{
    'entries: for number in live {
        if counts[*number as usize] == 0 {
            free.push_reserved(*number);
        }
    }
}
