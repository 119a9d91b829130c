// What a session shows at its end, as words.
use crate::line_of;
use block_book::Choice;
use guest_space::AllMapped;
use links::Entry;
use run_history::Answer;
use rx_engine::Left;
use session_notes::{Episode, NoteList};
use std::alloc::Global;
use std::test::Fail;

// A text as one word: a dot for a line feed, `_` for a blank, and a dash where there is nothing.
pub(crate) fn word_of(alloc: Global, text: &[u8]) -> Result<String, Fail> {
    let text = str::from_utf8(text)?;
    if text.is_empty() {
        return Ok("-".to_string(alloc)?);
    }
    let text = text.replace(alloc, "\n", ".")?;
    Ok(text.replace(alloc, " ", "_")?)
}

// The text of a word.
pub(crate) fn text_of(alloc: Global, word: &str) -> Result<String, Fail> {
    if word == "-" {
        return Ok(String::new(alloc));
    }
    let text = word.replace(alloc, ".", "\n")?;
    Ok(text.replace(alloc, "_", " ")?)
}

// Where blocks are, each with a z if it was zeroed, and with how many bytes were carried to it, if any were.
fn blocks_of(alloc: Global, choices: &[Choice]) -> Result<String, Fail> {
    let mut text = String::new(alloc);
    for choice in choices {
        let mark = if choice.zeroed { "z" } else { "" };
        let block = format!(in alloc; "{:x}{mark}", choice.at)?;
        text.push_str(block.as_str())?;
        if choice.carried > 0 {
            let carried = format!(in alloc; "+{:x}", choice.carried)?;
            text.push_str(carried.as_str())?;
        }
        text.push_str(",")?;
    }
    Ok(text)
}

// How many items were taken at a failure, its cause, and the address of the instruction that failed. Of each trial how many items were
// taken at its checkpoint, its environment, and what came of it.
fn episode_of(alloc: Global, episode: &Episode) -> Result<String, Fail> {
    let (point, cause, pc) = (episode.point, &episode.cause, episode.pc);
    let mut text = format!(in alloc; "failure={point}:{cause:?}@{pc:x} tries=")?;
    for one in episode.tries.as_slice() {
        let line = format!(in alloc; "{}:{:?}:{:?},", one.checkpoint, one.env, one.tried)?;
        text.push_str(line.as_str())?;
    }
    Ok(text)
}

// What is noted: how many answers of malloc and how many episodes; where the blocks are, and the episodes.
fn notes_shown(alloc: Global, notes: &NoteList) -> Result<String, Fail> {
    let choices = notes.kept_choices();
    let blocks = blocks_of(alloc, choices)?;
    let (noted, episodes) = (choices.len(), notes.episodes().len());
    let mut text = format!(in alloc; "noted={noted} noted_blocks={blocks} episodes={episodes}")?;
    for episode in notes.episodes() {
        let one = episode_of(alloc, episode)?;
        text.push_str(" ")?;
        text.push_str(one.as_str())?;
    }
    Ok(text)
}

// What is left: items taken, instructions, answers of malloc that are recorded and those behind them; the oldest item that is kept, how
// many were received, the oldest reply that is kept, and how many items the guest has taken.
fn left_shown(alloc: Global, left: &Left<AllMapped>) -> Result<String, Fail> {
    let (taken, steps, recorded) = (left.taken, left.steps, left.recorded);
    let behind = left.tail.as_slice();
    let blocks = blocks_of(alloc, behind)?;
    let (first, received) = (left.log.first(), left.log.received());
    let (first_send, guest) = (left.replies.first_send(), left.cpu.marks().taken);
    let own = format!(in alloc;
        "taken={taken} steps={steps} recorded={recorded} behind={} behind_blocks={blocks}",
        behind.len()
    )?;
    let kept = format!(in alloc; "kept={first},{received},{first_send},{guest}")?;
    Ok(format!(in alloc; "{own} {kept}")?)
}

// All blocks of the run: those that are noted, and those behind them.
fn all_blocks(alloc: Global, left: &Left<AllMapped>, notes: &NoteList) -> Result<String, Fail> {
    let mut text = blocks_of(alloc, notes.kept_choices())?;
    let behind = blocks_of(alloc, left.tail.as_slice())?;
    text.push_str(behind.as_str())?;
    Ok(text)
}

// The answer of a session, and the journal of its link.
fn end_shown(alloc: Global, answer: Answer, journal: &[Entry]) -> Result<String, Fail> {
    let spaced = format!(in alloc; "{answer:?}")?;
    let answer = spaced.replace(alloc, " ", "")?;
    let line = line_of(alloc, journal)?;
    let journal = word_of(alloc, line.as_slice())?;
    Ok(format!(in alloc; "{answer} {journal}")?)
}

// How a session ended: its answer, the journal of its link, its run's blocks, what it left and what it noted, and at how many failures
// its watch looked.
pub(crate) fn shown(
    alloc: Global,
    answer: Answer,
    journal: &[Entry],
    left: &Left<AllMapped>,
    notes: &NoteList,
    watched: u64,
) -> Result<String, Fail> {
    let ended = end_shown(alloc, answer, journal)?;
    let blocks = all_blocks(alloc, left, notes)?;
    let kept = left_shown(alloc, left)?;
    let noted = notes_shown(alloc, notes)?;
    Ok(format!(in alloc; "{ended} blocks={blocks} {kept} {noted} watched={watched}")?)
}
