// The three files that `standby` loads: a program, the record of the host that stopped, and how many bytes each client has.
ghost use Rattle.std.specs.Prelude.{◌≡◌, ◌≤◌, length, Err};
ghost use Rattle.command_line.specs.Commands.{standby_shown};
ghost use Rattle.file_notes.specs.Calling.{CallsUpTo};
ghost use Rattle.rx_base.specs.Faults.{Rose};
ghost use Rattle.run_history.specs.declared.answer.Answer.TheVariants as answer;
ghost use Rattle.rx_serve.specs.Limits.{record_limit};
ghost use Rattle.rx_serve.specs.StandbyFiles.{LoadsTakeover, LoadsTexts, ReadsCounted, ReadsFollowed, ReadsTexts, loading, texts_in};

use crate::loading::{MAX_PROGRAM, image_in, load_file};
use crate::replaying::MAX_RECORD;
use command_line::StandbyCommand;
use counts_file::{Counts, CountsRefusal, read_counts};
use guest_image::Image;
use run_history::Answer;
use rx_io::Files;
use schedule_file::{RecordRefusal, Recorded, read_record};
use std::alloc::Global;

/// The greatest number of bytes of counts: 128 KiB.
pub const MAX_COUNTS: u64 = 128 << 10;

/// What a run may have that is followed: so many instructions, and no more.
const MAX_FOLLOWED: u64 = (1 << 62) - 1;

/// The bytes of the three files.
#[derive(Drop)]
pub(crate) struct ThreeFiles {
    pub(crate) program: Vec<u8>,
    pub(crate) recorded: Vec<u8>,
    pub(crate) counts: Vec<u8>,
}

/// What they are read as: the program's image in the record's window, the record, and the counts.
#[derive(Drop)]
pub(crate) struct Takeover {
    pub(crate) image: Image,
    pub(crate) recorded: Recorded,
    pub(crate) counts: Counts,
}

// Loads the three files, the program first and the counts last.
fn load_texts<F: Files>(
    alloc: Global,
    files: &mut F,
    standby: &StandbyCommand<'_>,
) -> Result<ThreeFiles, Answer>
    ensures loads { LoadsTexts (F.told files.old) (standby_shown standby.now) result }
    ensures calls { CallsUpTo (F.calls files.old) (F.calls files.new) (loading (standby_shown standby.now)) result }
    ensures same { F.told files.new ≡ F.told files.old }
    ensures later { F.faults files.old ≤ F.faults files.new }
    ensures file_fault { result ≡ Err answer.FileFault → Rose (F.faults files.old) (F.faults files.new) }
{
    let program = match load_file(alloc, files, standby.program, MAX_PROGRAM) {
        Ok(program) => program,
        Err(answer) => return Err(answer),
    };
    let recorded = match load_file(alloc, files, standby.recorded, MAX_RECORD) {
        Ok(recorded) => recorded,
        Err(answer) => return Err(answer),
    };
    match load_file(alloc, files, standby.counts, MAX_COUNTS) {
        Ok(counts) => Ok(ThreeFiles {
            program,
            recorded,
            counts,
        }),
        Err(answer) => Err(answer),
    }
}

// Reads the record of a run that may be followed.
fn read_followed(alloc: Global, text: &[u8]) -> Result<Recorded, Answer>
    requires { length text.now ≤ record_limit }
    ensures { ReadsFollowed text.now result }
{
    match read_record(alloc, text) {
        Ok(recorded) => {
            if recorded.steps > MAX_FOLLOWED {
                let lines = recorded.lines.as_slice().len();
                return Err(Answer::RecordRefused {
                    line: lines as u32 + 2,
                });
            }
            Ok(recorded)
        }
        Err(RecordRefusal::Refused { line }) => Err(Answer::RecordRefused { line: line as u32 }),
        Err(RecordRefusal::Memory) => Err(Answer::Memory),
    }
}

// Reads how many bytes each client has.
pub(crate) fn read_counted(alloc: Global, text: &[u8]) -> Result<Counts, Answer>
    ensures { ReadsCounted text.now result }
{
    match read_counts(alloc, text) {
        Ok(counts) => Ok(counts),
        Err(CountsRefusal::Refused { line }) => Err(Answer::CountsRefused { line }),
        Err(CountsRefusal::Memory) => Err(Answer::Memory),
    }
}

// Reads the record, then the counts, then the image in the record's window.
fn read_texts(alloc: Global, files: &ThreeFiles) -> Result<Takeover, Answer>
    requires { length files.now.recorded.items ≤ record_limit }
    ensures { ReadsTexts (texts_in files.now) result }
{
    let recorded = match read_followed(alloc, files.recorded.as_slice()) {
        Ok(recorded) => recorded,
        Err(answer) => return Err(answer),
    };
    let counts = match read_counted(alloc, files.counts.as_slice()) {
        Ok(counts) => counts,
        Err(answer) => return Err(answer),
    };
    match image_in(alloc, files.program.as_slice(), recorded.window << 20) {
        Ok(image) => Ok(Takeover {
            image,
            recorded,
            counts,
        }),
        Err(answer) => Err(answer),
    }
}

/// Loads a program, the record of the host that stopped, and the counts, and reads the record, the counts and the image.
pub(crate) fn load_takeover<F: Files>(
    alloc: Global,
    files: &mut F,
    standby: &StandbyCommand<'_>,
) -> Result<Takeover, Answer>
    ensures loads { LoadsTakeover (F.told files.old) (standby_shown standby.now) result }
    ensures calls { CallsUpTo (F.calls files.old) (F.calls files.new) (loading (standby_shown standby.now)) result }
    ensures same { F.told files.new ≡ F.told files.old }
    ensures later { F.faults files.old ≤ F.faults files.new }
    ensures file_fault { result ≡ Err answer.FileFault → Rose (F.faults files.old) (F.faults files.new) }
{
    let texts = match load_texts(alloc, files, standby) {
        Ok(texts) => texts,
        Err(answer) => return Err(answer),
    };
    read_texts(alloc, &texts)
}
