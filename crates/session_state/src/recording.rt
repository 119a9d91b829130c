// What a session records of its run's answers of the allocator.
ghost use Rattle.std.specs.Prelude.{◌≡◌, ◌-◌, ◌≤◌, length};
ghost use Rattle.session_state.specs.Recording.{NotesUpTo, KeepsNotes};

use block_book::Choice;
use rx_base::IoFault;
use session_notes::Notes;

/// Notes the answers of the allocator up to the first `safe` ones of a run, of which the first `recorded` ones are noted, and `choices` are those behind
/// them. What is noted now leaves the list.
///
/// # Errors
///
/// Those of the notes. Nothing changed then.
pub fn note_up_to<N: Notes>(
    notes: &mut N,
    safe: u64,
    recorded: &mut u64,
    choices: &mut Vec<Choice>,
) -> Result<(), IoFault>
    requires { safe - recorded.old ≤ length choices.old.items }
    ensures noted { NotesUpTo safe recorded.old choices.old.items (N.shown notes.old) (N.shown notes.new) recorded.new choices.new.items result }
    ensures keeps { KeepsNotes (N.shown notes.old) (N.shown notes.new) result }
    ensures fixed { N.fixed notes.new ≡ N.fixed notes.old }
{
    if safe <= *recorded {
        return Ok(());
    }
    let count = (safe - *recorded) as usize;
    if let Err(fault) = notes.choices(&choices[..count]) {
        return Err(fault);
    }
    choices.drain(..count);
    *recorded = safe;
    Ok(())
}
