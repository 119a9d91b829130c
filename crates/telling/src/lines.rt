// The lines that a person is told.
use crate::item::SeenItem;
use crate::place::{Gone, Place};
use crate::sighting::{Sighting, Touch};
use block_book::{Block, Site};
use run_history::Cause;
use session_notes::{Episode, Try, cause_text, env_word};
use std::alloc::{AllocError, Global};

// The kinds of items.
const OPENED: u8 = 1;

const MESSAGE: u8 = 2;

// The names of the registers, by the calling convention of RISC-V.
static NAMES: [&str; 32] = [
    "zero", "ra", "sp", "gp", "tp", "t0", "t1", "t2", "s0", "s1", "a0", "a1", "a2", "a3", "a4",
    "a5", "a6", "a7", "s2", "s3", "s4", "s5", "s6", "s7", "s8", "s9", "s10", "s11", "t3", "t4",
    "t5", "t6",
];

/// How often a session failed, and how it went on: counts of what was told.
#[derive(Clone, Copy, Debug, PartialEq, Eq)]
pub struct Counts {
    pub recovered: u64,
    pub given_up: u64,
}

// A number and what it counts, in the singular or the plural.
fn counted(alloc: Global, number: u64, what: &str) -> Result<String, AllocError> {
    if number == 1 {
        return format!(in alloc; "1 {what}");
    }
    format!(in alloc; "{number} {what}s")
}

// A number of seconds of a day as hours, minutes and seconds, with a blank behind it; nothing where there is none.
fn clock(alloc: Global, second_of_day: Option<u32>) -> Result<String, AllocError> {
    let Some(second) = second_of_day else {
        return Ok(String::new(alloc));
    };
    let hours = second / 3600 % 24;
    let minutes = second / 60 % 60;
    let seconds = second % 60;
    format!(in alloc; "{hours:02}:{minutes:02}:{seconds:02} ")
}

// How long something took, with a blank before it; nothing where that isn't known.
fn duration(alloc: Global, micros: Option<u64>) -> Result<String, AllocError> {
    let Some(micros) = micros else {
        return Ok(String::new(alloc));
    };
    let whole = micros / 1000;
    let thousandths = micros % 1000;
    format!(in alloc; " in {whole}.{thousandths:03} ms")
}

// What an item is: a message with its number among those of its connection.
fn item_name(alloc: Global, item: &SeenItem) -> Result<String, AllocError> {
    let conn = item.conn;
    let number = item.number;
    match item.kind {
        MESSAGE => format!(in alloc; "message {number} of connection {conn}"),
        OPENED => format!(in alloc; "the open of connection {conn}"),
        _ => format!(in alloc; "the close of connection {conn}"),
    }
}

// The same, with the bytes of a message.
fn item_text(alloc: Global, item: &SeenItem) -> Result<String, AllocError> {
    let name = item_name(alloc, item)?;
    if item.kind != MESSAGE {
        return Ok(name);
    }
    let bytes = counted(alloc, item.len as u64, "byte")?;
    format!(in alloc; "{name}, {bytes}")
}

// Which item was taken last, with a blank before it; nothing where that isn't known.
fn taken_text(alloc: Global, seen: Option<&Sighting>) -> Result<String, AllocError> {
    let Some(seen) = seen else {
        return Ok(String::new(alloc));
    };
    let Some(item) = &seen.item else {
        return Ok(String::new(alloc));
    };
    let text = item_text(alloc, item)?;
    format!(in alloc; " ({text})")
}

// What the last of so many trials came to. Their numbers are those of the report, from 0.
fn trial_text(alloc: Global, count: u64, last: Option<&Try>) -> Result<String, AllocError> {
    match last {
        Some(t) if t.tried.survives() => {
            let number = count.saturating_sub(1);
            let checkpoint = t.checkpoint;
            let env = env_word(t.env);
            format!(in alloc; "try {number}, checkpoint {checkpoint}, env {env}")
        }
        _ => {
            let tries = match count {
                1 => String::from_str(alloc, "1 try")?,
                _ => format!(in alloc; "{count} tries")?,
            };
            format!(in alloc; "{tries}, of which none survived")
        }
    }
}

/// Whether the last trial of an episode survived.
pub fn is_recovered(episode: &Episode) -> bool {
    match episode.tries.as_slice() {
        [.., last] => last.tried.survives(),
        [] => false,
    }
}

/// A line about what was tried after a failure, with its line feed: the time of day, as a number of seconds, how many microseconds it
/// took, and what was seen of the failure, as far as that is known.
pub fn recovery_line(
    alloc: Global,
    second_of_day: Option<u32>,
    micros: Option<u64>,
    seen: Option<&Sighting>,
    episode: &Episode,
) -> Result<String, AllocError> {
    let clock = clock(alloc, second_of_day)?;
    let verb = if is_recovered(episode) {
        "recovered"
    } else {
        "gave up"
    };
    let took = duration(alloc, micros)?;
    let point = episode.point;
    let taken = taken_text(alloc, seen)?;
    let cause = cause_text(alloc, episode.cause)?;
    let pc = episode.pc;
    let tries = episode.tries.as_slice();
    let trial = trial_text(alloc, tries.len() as u64, tries.last())?;
    format!(in alloc;
        "rx: {clock}{verb}{took}: point {point}{taken}: {cause} at {pc:08x}; {trial}\n"
    )
}

// Where an address is, as seen from a block at or below it.
fn near_text(alloc: Global, at: u32, block: &Block) -> Result<String, AllocError> {
    let kind = if block.delayed {
        "freed block"
    } else {
        "block"
    };
    let size = counted(alloc, u64::from(block.size), "byte")?;
    let start = block.at;
    let within = at.saturating_sub(start);
    if within < block.size {
        let within = counted(alloc, u64::from(within), "byte")?;
        return format!(in alloc; "{within} into a {kind} of {size} at {start:08x}");
    }
    let past = counted(alloc, u64::from(within - block.size), "byte")?;
    format!(in alloc; "{past} past a {kind} of {size} at {start:08x}")
}

// Where a program asked, and for which item, as far as that is known.
fn site_text(alloc: Global, site: &Site, item: Option<&SeenItem>) -> Result<String, AllocError> {
    let pc = site.pc;
    let caller = site.caller;
    let cause = match item {
        Some(item) => {
            let name = item_name(alloc, item)?;
            format!(in alloc; "for {name}")?
        }
        None => {
            let items = counted(alloc, site.taken, "item")?;
            format!(in alloc; "behind {items}")?
        }
    };
    format!(in alloc; "at {pc:08x} (ra {caller:08x}) {cause}")
}

// The line of a block that was freed.
fn gone_line(alloc: Global, gone: &Gone) -> Result<String, AllocError> {
    let block = &gone.freed.block;
    let size = counted(alloc, u64::from(block.size), "byte")?;
    let start = block.at;
    let made = site_text(alloc, &block.made, gone.made_for.as_ref())?;
    let freed = site_text(alloc, &gone.freed.by, gone.freed_for.as_ref())?;
    format!(in alloc;
        "    there was a block of {size} at {start:08x}, allocated {made}, freed {freed}\n"
    )
}

// The lines of the blocks at an address: where they were allocated and freed.
fn block_lines(alloc: Global, place: &Place) -> Result<String, AllocError> {
    let mut text = String::new(alloc);
    if let Some(near) = &place.below {
        let start = near.block.at;
        let made = site_text(alloc, &near.block.made, near.made_for.as_ref())?;
        let line = format!(in alloc; "    the block at {start:08x} was allocated {made}\n")?;
        text.push_str(line.as_str())?;
    }
    if let Some(gone) = &place.gone {
        let line = gone_line(alloc, gone)?;
        text.push_str(line.as_str())?;
    }
    Ok(text)
}

// What lies at an address.
fn place_text(alloc: Global, at: u32, place: &Place) -> Result<String, AllocError> {
    if !place.in_heap {
        if place.allowed {
            return String::from_str(alloc, "in a segment that allows it");
        }
        return String::from_str(alloc, "no segment allows it");
    }
    match &place.below {
        Some(near) => near_text(alloc, at, &near.block),
        None => String::from_str(alloc, "in the heap, with no block near below"),
    }
}

// The lines of an access.
fn touch_lines(alloc: Global, touch: &Touch) -> Result<String, AllocError> {
    let verb = if touch.access.write { "wrote" } else { "read" };
    let count = counted(alloc, u64::from(touch.access.count), "byte")?;
    let at = touch.access.at;
    let place = place_text(alloc, at, &touch.place)?;
    let blocks = block_lines(alloc, &touch.place)?;
    format!(in alloc; "  {verb} {count} at {at:08x}: {place}\n{blocks}")
}

// The lines of the registers, eight of them in each.
fn register_lines(alloc: Global, values: &[u32]) -> Result<String, AllocError> {
    let mut text = String::new(alloc);
    for (number, (name, value)) in NAMES.iter().zip(values).enumerate() {
        let blank = if number % 8 == 0 { "  " } else { " " };
        let end = if number % 8 == 7 { "\n" } else { "" };
        let one = format!(in alloc; "{blank}{name} {value:08x}{end}")?;
        text.push_str(one.as_str())?;
    }
    Ok(text)
}

// The lines of a pointer that can't be freed.
fn pointer_lines(alloc: Global, seen: &Sighting) -> Result<String, AllocError> {
    let pointer = seen.regs.x[10];
    let gone = match &seen.pointer {
        Some(gone) => gone_line(alloc, gone)?,
        None => String::new(alloc),
    };
    format!(in alloc; "  no block that can be freed begins at {pointer:08x}\n{gone}")
}

/// Lines about what was seen at a failure of this cause, each with its line feed: the access that failed and what lies there, the
/// pointer that can't be freed, where the blocks there were allocated and freed, and the registers.
pub fn sighting_lines(alloc: Global, cause: Cause, seen: &Sighting) -> Result<String, AllocError> {
    let mut text = match (cause, &seen.touch) {
        (Cause::BadAccess, Some(touch)) => touch_lines(alloc, touch)?,
        (Cause::BadFree, _) => pointer_lines(alloc, seen)?,
        _ => String::new(alloc),
    };
    let registers = register_lines(alloc, seen.regs.x.as_slice())?;
    text.push_str(registers.as_str())?;
    Ok(text)
}

/// The last line, with its line feed: the time of day, as a number of seconds, the status, the items taken, and how often it failed.
pub fn end_line(
    alloc: Global,
    second_of_day: Option<u32>,
    status: u8,
    taken: u64,
    counts: &Counts,
) -> Result<String, AllocError> {
    let clock = clock(alloc, second_of_day)?;
    let items = counted(alloc, taken, "item")?;
    let recovered = counts.recovered;
    let given_up = counts.given_up;
    let failures = counted(alloc, recovered.saturating_add(given_up), "failure")?;
    format!(in alloc;
        "rx: {clock}ended with status {status}: {items} taken, {failures}, {recovered} recovered, {given_up} given up\n"
    )
}
