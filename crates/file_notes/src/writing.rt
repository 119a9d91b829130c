// Writing texts into one file and into both.
ghost use Rattle.std.specs.Prelude.{◌≡◌, [], ◌∷◌};
ghost use Rattle.rx_base.specs.Faults.{HasCause};
ghost use Rattle.rx_io.specs.declared.file_calls.FileCall.TheVariants.{Added};
ghost use Rattle.file_notes.specs.Names.{AreTwo, names_in};
ghost use Rattle.file_notes.specs.Calling.{CallsUpTo, starts_of, starting, ending, taking_over};
ghost use Rattle.file_notes.specs.Writing.{Writes, StartsBoth, AddsBoth, TakesOverBoth, nothing_kept, all_kept};

use crate::file_names::FileNames;
use rx_base::IoFault;
use rx_io::Files;

/// Starts a file, and adds a text to it.
///
/// # Errors
///
/// `Failed` only where the count of faults rose; `Memory`. A part of the text may stand there then.
#[tactic(auto, using(crate::proofs::WritingLemmas::starts_one))]
pub fn start_file<F: Files>(files: &mut F, name: &str, text: &[u8]) -> Result<(), IoFault>
    ensures writes { Writes nothing_kept (F.told files.old) (F.told files.new) name.now text.now result }
    ensures calls { CallsUpTo (F.calls files.old) (F.calls files.new) (starts_of name.now) result }
    ensures fixed { F.fixed files.new ≡ F.fixed files.old }
    ensures cause { HasCause (F.faults files.old) (F.faults files.new) result }
{
    match files.start(name) {
        Ok(()) => files.add(name, text),
        Err(fault) => Err(fault),
    }
}

/// Adds a text to a file.
///
/// # Errors
///
/// `Failed` only where the count of faults rose; `Memory`. A part of the text may stand there then.
#[tactic(auto, using(crate::proofs::WritingLemmas::adds_one))]
pub fn add_to_file<F: Files>(files: &mut F, name: &str, text: &[u8]) -> Result<(), IoFault>
    ensures writes { Writes all_kept (F.told files.old) (F.told files.new) name.now text.now result }
    ensures calls { CallsUpTo (F.calls files.old) (F.calls files.new) (Added name.now ∷ []) result }
    ensures fixed { F.fixed files.new ≡ F.fixed files.old }
    ensures cause { HasCause (F.faults files.old) (F.faults files.new) result }
{
    files.add(name, text)
}

// Starts the record with a text, and then the report.
pub(crate) fn start_both<F: Files>(
    files: &mut F,
    names: &FileNames<'_>,
    of_record: &[u8],
    of_report: &[u8],
) -> Result<(), IoFault>
    requires { AreTwo (names_in names.now) }
    ensures writes { StartsBoth (names_in names.now) of_record.now of_report.now (F.told files.old) (F.told files.new) result }
    ensures calls { CallsUpTo (F.calls files.old) (F.calls files.new) (starting (names_in names.now)) result }
    ensures fixed { F.fixed files.new ≡ F.fixed files.old }
    ensures cause { HasCause (F.faults files.old) (F.faults files.new) result }
{
    match start_file(files, names.record, of_record) {
        Ok(()) => start_file(files, names.report, of_report),
        Err(fault) => Err(fault),
    }
}

// Empties the record, starts the report with a text, and then adds a text to the record.
pub(crate) fn take_over_both<F: Files>(
    files: &mut F,
    names: &FileNames<'_>,
    of_record: &[u8],
    of_report: &[u8],
) -> Result<(), IoFault>
    requires { AreTwo (names_in names.now) }
    ensures writes { TakesOverBoth (names_in names.now) of_record.now of_report.now (F.told files.old) (F.told files.new) result }
    ensures calls { CallsUpTo (F.calls files.old) (F.calls files.new) (taking_over (names_in names.now)) result }
    ensures fixed { F.fixed files.new ≡ F.fixed files.old }
    ensures cause { HasCause (F.faults files.old) (F.faults files.new) result }
{
    match files.start(names.record) {
        Ok(()) => match start_file(files, names.report, of_report) {
            Ok(()) => add_to_file(files, names.record, of_record),
            Err(fault) => Err(fault),
        },
        Err(fault) => Err(fault),
    }
}

// Adds a text to the record, and then one to the report.
pub(crate) fn add_both<F: Files>(
    files: &mut F,
    names: &FileNames<'_>,
    of_record: &[u8],
    of_report: &[u8],
) -> Result<(), IoFault>
    requires { AreTwo (names_in names.now) }
    ensures writes { AddsBoth (names_in names.now) of_record.now of_report.now (F.told files.old) (F.told files.new) result }
    ensures calls { CallsUpTo (F.calls files.old) (F.calls files.new) (ending (names_in names.now)) result }
    ensures fixed { F.fixed files.new ≡ F.fixed files.old }
    ensures cause { HasCause (F.faults files.old) (F.faults files.new) result }
{
    match add_to_file(files, names.record, of_record) {
        Ok(()) => add_to_file(files, names.report, of_report),
        Err(fault) => Err(fault),
    }
}
