// Texts of what was noted, and adding them to files.
ghost use Rattle.std.specs.Prelude.{◌≡◌, ◌+◌, ◌^◌, ◌<◌, true, [], ◌∷◌, IfOk};
ghost use Rattle.rx_base.specs.Faults.{HasCause};
ghost use Rattle.rx_io.specs.Named.{Adds};
ghost use Rattle.rx_io.specs.declared.file_calls.FileCall.TheVariants.{Added};
ghost use Rattle.file_notes.specs.Calling.{CallsUpTo};
ghost use Rattle.run_report.specs.Report.{episode_text};
ghost use Rattle.schedule_file.specs.Lines.{choice_lines};
ghost use Rattle.schedule_file.specs.Telling.{is_ask};
ghost use Rattle.file_notes.specs.Asks.{AreAsks};
ghost use Rattle.file_notes.specs.Texts.{told_text};

use block_book::{Ask, Choice};
use run_report::{Form, episode_text, head_text};
use rx_base::{Bytes, IoFault};
use rx_io::Files;
use schedule_file::add_choice;
use session_notes::Episode;
use std::alloc::{AllocError, Global};

// The numbers of an ask have 32 bits each. Their types say it, and this says it of what is in a list.
fn know_numbers(ask: Ask)
    ensures { is_ask ask ≡ true }
{
    match ask {
        Ask::Malloc { size: _ } => {}
        Ask::Calloc { count: _, size: _ } => {}
        Ask::Realloc { old: _, size: _ } => {}
    }
}

// The lines of some answers of the allocator.
fn choice_bytes(alloc: Global, list: &[Choice]) -> Result<Bytes, AllocError>
    ensures lines { IfOk result (λ bytes. bytes ≡ choice_lines list.now) }
    ensures asks { IfOk result (λ bytes. AreAsks list.now) }
{
    let mut bytes = Vec::new(alloc);
    'choices: for choice in list {
        know_numbers(choice.ask);
        add_choice(&mut bytes, *choice)?;
    }
    Ok(Bytes::from_vec(bytes))
}

// The first line of a report, and behind it the texts of some episodes, numbered from 0.
pub(crate) fn told_bytes(
    alloc: Global,
    form: Form,
    episodes: &[Episode],
) -> Result<Bytes, AllocError>
    ensures { IfOk result (λ bytes. bytes ≡ told_text form episodes.now) }
{
    let head = head_text(alloc, form)?;
    let mut bytes = Vec::new(alloc);
    bytes.extend_from_slice(head.as_slice())?;
    'episodes: for (i, e) in episodes.iter().enumerate() {
        let text = episode_text(alloc, i as u64, e, form)?;
        bytes.extend_from_slice(text.as_slice())?;
    }
    Ok(Bytes::from_vec(bytes))
}

// Adds the lines of some answers of the allocator to a file, by one call. Where memory runs out before it, nothing is added.
pub(crate) fn add_choices<F: Files>(
    alloc: Global,
    files: &mut F,
    name: &str,
    list: &[Choice],
) -> Result<(), IoFault>
    ensures added { Adds (F.told files.old) (F.told files.new) name.now (choice_lines list.now) result }
    ensures calls { CallsUpTo (F.calls files.old) (F.calls files.new) (Added name.now ∷ []) result }
    ensures asks { IfOk result (λ done. AreAsks list.now) }
    ensures fixed { F.fixed files.new ≡ F.fixed files.old }
    ensures cause { HasCause (F.faults files.old) (F.faults files.new) result }
{
    let Ok(bytes) = choice_bytes(alloc, list) else {
        return Err(IoFault::Memory);
    };
    files.add(name, bytes.as_slice())
}

// Adds the text of an episode to a file, by one call. Where memory runs out before it, or no number is behind this one, nothing
// is added.
pub(crate) fn add_episode<F: Files>(
    alloc: Global,
    files: &mut F,
    name: &str,
    form: Form,
    number: u64,
    e: &Episode,
) -> Result<(), IoFault>
    ensures added { Adds (F.told files.old) (F.told files.new) name.now (episode_text number e.now form) result }
    ensures calls { CallsUpTo (F.calls files.old) (F.calls files.new) (Added name.now ∷ []) result }
    ensures number { IfOk result (λ done. number + 1 < 2 ^ 64) }
    ensures fixed { F.fixed files.new ≡ F.fixed files.old }
    ensures cause { HasCause (F.faults files.old) (F.faults files.new) result }
{
    if number == u64::MAX {
        return Err(IoFault::Memory);
    }
    let Ok(bytes) = episode_text(alloc, number, e, form) else {
        return Err(IoFault::Memory);
    };
    files.add(name, bytes.as_slice())
}
