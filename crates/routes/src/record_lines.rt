// The lines of a record behind its first one.
ghost use Rattle.std.specs.Prelude.{◌≡◌, ◌≤◌, ◌<◌, ◌^◌, ◌++◌, OnOk};
ghost use Rattle.schedule_file.specs.Answers.{Writes};
ghost use Rattle.schedule_file.specs.Lines.{choice_lines, end_line};
ghost use Rattle.rx_base.specs.declared.item.TheConstants.{MAX_ITEMS};

use block_book::Choice;
use rx_base::Bytes;
use schedule_file::{add_choice, end_line};
use std::alloc::{AllocError, Global};

// The lines of some answers of the allocator, behind bytes that stand there.
pub(crate) fn add_choices(bytes: &mut Vec<u8>, list: &[Choice]) -> Result<(), AllocError>
    ensures { OnOk result (bytes.new.items ≡ bytes.old.items ++ choice_lines list.now) }
{
    'choices: for choice in list {
        add_choice(bytes, *choice)?;
    }
    Ok(())
}

/// The lines of a record in version 2 behind its first one: one for each answer of the allocator, and the last line.
pub fn rest_lines(
    alloc: Global,
    choices: &[Choice],
    steps: u64,
    taken: u64,
) -> Result<Bytes, AllocError>
    requires some_steps { steps < 2 ^ 63 }
    requires some_taken { taken ≤ MAX_ITEMS }
    ensures { Writes (choice_lines choices.now ++ end_line steps taken) result }
{
    let end = end_line(alloc, steps, taken)?;
    let mut bytes = Vec::new(alloc);
    add_choices(&mut bytes, choices)?;
    bytes.extend_from_slice(end.as_slice())?;
    Ok(Bytes::from_vec(bytes))
}
