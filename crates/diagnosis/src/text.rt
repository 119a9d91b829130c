// The text of a diagnosis.
ghost use Rattle.std.specs.Prelude.{◌≡◌, ◌++◌, IfOk, OnOk, length};
ghost use Rattle.run_report.specs.TextLines.{try_lines};
ghost use Rattle.diagnosis.specs.Diagnosis.{head_text, env_words, verdict_line, episode_lines, episodes_lines, end_line, rest_text, diagnosis_text};

use crate::verdict::cures;
use alloc_env::Env;
use rx_base::Bytes;
use session_notes::{Episode, Tries, Try, env_word, failure_line, try_line};
use std::alloc::{AllocError, Global};

// Adds the words of some environments, each after a space.
fn add_words(text: &mut Vec<u8>, envs: &[Env]) -> Result<(), AllocError>
    ensures { OnOk result (text.new.items ≡ text.old.items ++ env_words envs.now) }
{
    'envs: for env in envs {
        text.extend_from_slice(b" ")?;
        text.extend_from_slice(env_word(*env).as_bytes())?;
    }
    Ok(())
}

// Adds the line of a verdict.
#[tactic(auto, unfolding(crate::specs::Diagnosis::verdict_line))]
fn add_verdict(text: &mut Vec<u8>, envs: &[Env]) -> Result<(), AllocError>
    ensures { OnOk result (text.new.items ≡ text.old.items ++ verdict_line envs.now) }
{
    text.extend_from_slice(b"verdict")?;
    match envs {
        [] => text.extend_from_slice(b" none")?,
        _ => add_words(text, envs)?,
    }
    text.extend_from_slice(b"\n")?;
    Ok(())
}

// Adds the lines of some trials, numbered from 0.
fn add_tries(alloc: Global, text: &mut Vec<u8>, tries: &[Try]) -> Result<(), AllocError>
    ensures { OnOk result (text.new.items ≡ text.old.items ++ try_lines 0 tries.now) }
{
    'tries: for (i, t) in tries.iter().enumerate() {
        let line = try_line(alloc, i as u64, t)?;
        text.extend_from_slice(line.as_slice())?;
    }
    Ok(())
}

// Adds what is said of an episode, by the trials of its whole table.
#[tactic(auto, unfolding(crate::specs::Diagnosis::episode_lines))]
fn add_episode(
    alloc: Global,
    text: &mut Vec<u8>,
    number: u64,
    e: &Episode,
    tries: &[Try],
) -> Result<(), AllocError>
    ensures { OnOk result (text.new.items ≡ text.old.items ++ episode_lines number e.now tries.now) }
{
    let failure = failure_line(alloc, number, e)?;
    text.extend_from_slice(failure.as_slice())?;
    add_tries(alloc, text, tries)?;
    let envs = cures(alloc, tries)?;
    add_verdict(text, envs.as_slice())
}

// Adds what is said of all episodes, each with its table.
fn add_episodes(
    alloc: Global,
    text: &mut Vec<u8>,
    episodes: &[Episode],
    tables: &[Tries],
) -> Result<(), AllocError>
    requires { length episodes.now ≡ length tables.now }
    ensures { OnOk result (text.new.items ≡ text.old.items ++ episodes_lines 0 episodes.now tables.now) }
{
    'episodes: for (i, e) in episodes.iter().enumerate() {
        add_episode(alloc, text, i as u64, e, tables[i].as_slice())?;
    }
    Ok(())
}

// The last line.
#[tactic(auto, unfolding(crate::specs::Diagnosis::end_line))]
fn end_line(alloc: Global, status: u8, count: u64) -> Result<Bytes, AllocError>
    ensures { IfOk result (λ bytes. bytes ≡ end_line status count) }
{
    let text = format!(in alloc; "end {status} episodes {count}\n")?;
    Ok(Bytes::from_vec(text.into_bytes()))
}

/// The first line of a diagnosis, with its line feed.
pub fn head_text(alloc: Global) -> Result<Bytes, AllocError>
    ensures { IfOk result (λ bytes. bytes ≡ head_text) }
{
    Ok(Bytes::from_vec(b"rx diagnosis 1\n".to_vec(alloc)?))
}

// Adds all behind the first line.
fn add_rest(
    alloc: Global,
    text: &mut Vec<u8>,
    episodes: &[Episode],
    tables: &[Tries],
    status: u8,
) -> Result<(), AllocError>
    requires { length episodes.now ≡ length tables.now }
    ensures { OnOk result (text.new.items ≡ text.old.items ++ rest_text episodes.now tables.now status) }
{
    add_episodes(alloc, text, episodes, tables)?;
    let end = end_line(alloc, status, episodes.len() as u64)?;
    text.extend_from_slice(end.as_slice())?;
    Ok(())
}

/// All behind the first line of a diagnosis, as `diagnosis_text` has it.
pub fn rest_text(
    alloc: Global,
    episodes: &[Episode],
    tables: &[Tries],
    status: u8,
) -> Result<Bytes, AllocError>
    requires { length episodes.now ≡ length tables.now }
    ensures { IfOk result (λ bytes. bytes ≡ rest_text episodes.now tables.now status) }
{
    let mut text = Vec::new(alloc);
    add_rest(alloc, &mut text, episodes, tables, status)?;
    Ok(Bytes::from_vec(text))
}

/// The text of a diagnosis: its first line, what is said of each episode, and its last line, with the status of the session and the number of
/// episodes. Of an episode it has the line of the failure as a report has it, a line for each trial of its whole table, and the verdict: the environments that survive
/// at the newest checkpoint at which any survives, or that none does. Each line ends with a line feed.
pub fn diagnosis_text(
    alloc: Global,
    episodes: &[Episode],
    tables: &[Tries],
    status: u8,
) -> Result<Bytes, AllocError>
    requires { length episodes.now ≡ length tables.now }
    ensures { IfOk result (λ bytes. bytes ≡ diagnosis_text episodes.now tables.now status) }
{
    let mut text = b"rx diagnosis 1\n".to_vec(alloc)?;
    add_rest(alloc, &mut text, episodes, tables, status)?;
    Ok(Bytes::from_vec(text))
}
