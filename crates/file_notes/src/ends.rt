// How both files are begun, and their last lines.
ghost use Rattle.std.specs.Prelude.{◌≡◌, ◌≤◌, ◌<◌, ◌^◌};
ghost use Rattle.rx_base.specs.Faults.{HasCause};
ghost use Rattle.run_report.specs.Report.{head_text, end_text};
ghost use Rattle.schedule_file.specs.Lines.{head_line, end_line};
ghost use Rattle.schedule_file.specs.declared.recorded.TheConstants.{MAX_WINDOW, VERSION};
ghost use Rattle.rx_base.specs.declared.item.TheConstants.{MAX_ITEMS};
ghost use Rattle.file_notes.specs.Names.{AreTwo, names_in};
ghost use Rattle.file_notes.specs.Calling.{CallsUpTo, starting, ending, taking_over};
ghost use Rattle.file_notes.specs.Texts.{told_text};
ghost use Rattle.file_notes.specs.Writing.{StartsBoth, AddsBoth, TakesOverBoth};

use crate::adding::told_bytes;
use crate::file_names::FileNames;
use crate::writing::{add_both, start_both, take_over_both};
use msg_frame::Framing;
use run_report::{Form, end_text, head_text};
use rx_base::IoFault;
use rx_io::Files;
use schedule_file::{end_line, head_line};
use session_notes::Episode;
use std::alloc::Global;

/// What a record's first line says: the window in MiB, and the framing.
#[derive(Clone, Copy, Debug)]
pub struct FirstLine {
    pub window: u32,
    pub frame: Framing,
}

/// What the last lines of a record and of a report say: the session's status, how many items were taken, and how many
/// instructions were executed.
#[derive(Clone, Copy, Debug)]
pub struct LastLines {
    pub status: u8,
    pub taken: u64,
    pub steps: u64,
}

/// Starts the record with its first line, and then the report with its own, whatever the two files had. Where memory runs out
/// no call is made.
///
/// # Errors
///
/// `Failed` only where the count of faults rose; `Memory`.
pub fn start_files<F: Files>(
    alloc: Global,
    files: &mut F,
    names: &FileNames<'_>,
    first: &FirstLine,
    form: Form,
) -> Result<(), IoFault>
    requires two { AreTwo (names_in names.now) }
    requires least { 1 ≤ first.now.window }
    requires most { first.now.window ≤ MAX_WINDOW }
    ensures starts { StartsBoth (names_in names.now) (head_line VERSION first.now.window first.now.frame) (head_text form) (F.told files.old) (F.told files.new) result }
    ensures calls { CallsUpTo (F.calls files.old) (F.calls files.new) (starting (names_in names.now)) result }
    ensures fixed { F.fixed files.new ≡ F.fixed files.old }
    ensures cause { HasCause (F.faults files.old) (F.faults files.new) result }
{
    let Ok(of_record) = head_line(alloc, first.window, first.frame) else {
        return Err(IoFault::Memory);
    };
    let Ok(of_report) = head_text(alloc, form) else {
        return Err(IoFault::Memory);
    };
    start_both(files, names, of_record.as_slice(), of_report.as_slice())
}

/// Starts both files of a session that takes over from one that had these episodes, whatever the two had. The record is emptied first. Then the report is
/// started with its first line and the texts of the episodes, numbered from 0. Last the record gets its first line. So a report with a part of them stands
/// beside an empty record alone. Where memory runs out before the first call no call is made.
///
/// # Errors
///
/// `Failed` only where the count of faults rose; `Memory`.
pub fn start_taken_over<F: Files>(
    alloc: Global,
    files: &mut F,
    names: &FileNames<'_>,
    first: &FirstLine,
    form: Form,
    episodes: &[Episode],
) -> Result<(), IoFault>
    requires two { AreTwo (names_in names.now) }
    requires least { 1 ≤ first.now.window }
    requires most { first.now.window ≤ MAX_WINDOW }
    ensures starts { TakesOverBoth (names_in names.now) (head_line VERSION first.now.window first.now.frame) (told_text form episodes.now) (F.told files.old) (F.told files.new) result }
    ensures calls { CallsUpTo (F.calls files.old) (F.calls files.new) (taking_over (names_in names.now)) result }
    ensures fixed { F.fixed files.new ≡ F.fixed files.old }
    ensures cause { HasCause (F.faults files.old) (F.faults files.new) result }
{
    let Ok(of_record) = head_line(alloc, first.window, first.frame) else {
        return Err(IoFault::Memory);
    };
    let Ok(of_report) = told_bytes(alloc, form, episodes) else {
        return Err(IoFault::Memory);
    };
    take_over_both(files, names, of_record.as_slice(), of_report.as_slice())
}

/// Adds the record's last line, and then the report's. Where memory runs out no call is made.
///
/// # Errors
///
/// `Failed` only where the count of faults rose; `Memory`.
pub fn end_files<F: Files>(
    alloc: Global,
    files: &mut F,
    names: &FileNames<'_>,
    form: Form,
    last: &LastLines,
) -> Result<(), IoFault>
    requires two { AreTwo (names_in names.now) }
    requires steps { last.now.steps < 2 ^ 63 }
    requires taken { last.now.taken ≤ MAX_ITEMS }
    ensures ends { AddsBoth (names_in names.now) (end_line last.now.steps last.now.taken) (end_text last.now.status last.now.taken last.now.steps form) (F.told files.old) (F.told files.new) result }
    ensures calls { CallsUpTo (F.calls files.old) (F.calls files.new) (ending (names_in names.now)) result }
    ensures fixed { F.fixed files.new ≡ F.fixed files.old }
    ensures cause { HasCause (F.faults files.old) (F.faults files.new) result }
{
    let Ok(of_record) = end_line(alloc, last.steps, last.taken) else {
        return Err(IoFault::Memory);
    };
    let Ok(of_report) = end_text(alloc, last.status, last.taken, last.steps, form) else {
        return Err(IoFault::Memory);
    };
    add_both(files, names, of_record.as_slice(), of_report.as_slice())
}
