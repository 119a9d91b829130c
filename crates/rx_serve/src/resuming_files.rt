// The four files that `resume` loads: a program, the record and the report of the host that was killed, and how many bytes each client has.
ghost use Rattle.std.specs.Prelude.{◌≡◌, ◌≤◌, length, map, All, IfOk, Err};
ghost use Rattle.command_line.specs.Commands.{resume_shown};
ghost use Rattle.file_notes.specs.Calling.{CallsUpTo};
ghost use Rattle.rx_base.specs.Faults.{Rose};
ghost use Rattle.run_history.specs.declared.answer.Answer.TheVariants as answer;
ghost use Rattle.schedule_file.specs.Lines.{line_of};
ghost use Rattle.schedule_file.specs.Records.{IsAnswer};
ghost use Rattle.schedule_file.specs.Unfinished.{IsUnfinishedReading};
ghost use Rattle.schedule_file.specs.declared.recorded.TheConstants.{VERSION};
ghost use Rattle.rx_serve.specs.Limits.{record_limit, report_limit};
ghost use Rattle.rx_serve.specs.ResumeFiles.{LoadsFour, LoadsHandover, ReadsAdopted, ReadsFour, ReadsHanded, four_in, loading_four};

use crate::loading::{MAX_PROGRAM, image_in, load_file};
use crate::replaying::MAX_RECORD;
use crate::standby_files::{MAX_COUNTS, read_counted};
use block_book::{Ask, Choice};
use command_line::ResumeCommand;
use counts_file::Counts;
use guest_image::Image;
use msg_frame::Framing;
use report_reading::{Episodes, ReportRefusal, read_report};
use run_history::Answer;
use rx_io::Files;
use schedule_file::{Finish, Line, RecordRefusal, Unfinished, VERSION, read_unfinished};
use std::alloc::{AllocError, Global};

/// The greatest number of bytes of a report: 1 GiB.
pub const MAX_REPORT: u64 = 1 << 30;

/// The bytes of the four files.
#[derive(Drop)]
pub(crate) struct FourFiles {
    pub(crate) program: Vec<u8>,
    pub(crate) recorded: Vec<u8>,
    pub(crate) reported: Vec<u8>,
    pub(crate) counts: Vec<u8>,
}

/// What the record says: its window in MiB, its framing, the answers of the allocator, and its last line, if it is there.
#[derive(Drop)]
pub(crate) struct Handed {
    pub(crate) window: u32,
    pub(crate) frame: Framing,
    pub(crate) choices: Vec<Choice>,
    pub(crate) finish: Option<Finish>,
}

/// What the four are read as: the program's image in the record's window, the record, the episodes of the report of which a trial was
/// adopted, and the counts.
#[derive(Drop)]
pub(crate) struct Handover {
    pub(crate) image: Image,
    pub(crate) handed: Handed,
    pub(crate) episodes: Episodes,
    pub(crate) counts: Counts,
}

// Loads the four files, the program first and the counts last.
fn load_four<F: Files>(
    alloc: Global,
    files: &mut F,
    resume: &ResumeCommand<'_>,
) -> Result<FourFiles, Answer>
    ensures loads { LoadsFour (F.told files.old) (resume_shown resume.now) result }
    ensures calls { CallsUpTo (F.calls files.old) (F.calls files.new) (loading_four (resume_shown resume.now)) result }
    ensures same { F.told files.new ≡ F.told files.old }
    ensures later { F.faults files.old ≤ F.faults files.new }
    ensures file_fault { result ≡ Err answer.FileFault → Rose (F.faults files.old) (F.faults files.new) }
{
    let program = match load_file(alloc, files, resume.program, MAX_PROGRAM) {
        Ok(program) => program,
        Err(answer) => return Err(answer),
    };
    let recorded = match load_file(alloc, files, resume.recorded, MAX_RECORD) {
        Ok(recorded) => recorded,
        Err(answer) => return Err(answer),
    };
    let reported = match load_file(alloc, files, resume.reported, MAX_REPORT) {
        Ok(reported) => reported,
        Err(answer) => return Err(answer),
    };
    match load_file(alloc, files, resume.counts, MAX_COUNTS) {
        Ok(counts) => Ok(FourFiles {
            program,
            recorded,
            reported,
            counts,
        }),
        Err(answer) => Err(answer),
    }
}

// The answer of the allocator that a line of version 2 is of. Such a line says what was asked.
fn choice_of(line: Line) -> Choice
    requires { IsAnswer VERSION line }
    ensures { line_of result ≡ line }
{
    let ask = match line.ask {
        Some(ask) => ask,
        None => Ask::Malloc { size: 0 },
    };
    Choice {
        ask,
        at: line.at,
        zeroed: line.zeroed,
        carried: line.carried,
    }
}

// The answers of the allocator that some lines of version 2 are of.
fn choices_of(alloc: Global, lines: &[Line]) -> Result<Vec<Choice>, AllocError>
    requires { All (IsAnswer VERSION) lines.now }
    ensures { IfOk result (λ choices. map line_of choices.items ≡ lines.now) }
{
    let mut choices = Vec::new(alloc);
    'lines: for line in lines {
        choices.push(choice_of(*line))?;
    }
    Ok(choices)
}

// What a record of version 2 says.
fn handed_in(alloc: Global, text: &[u8], read: &Unfinished) -> Result<Handed, Answer>
    requires is { IsUnfinishedReading text.now read.now }
    requires asked { read.now.version ≡ VERSION }
    ensures { ReadsHanded text.now result }
{
    let Ok(choices) = choices_of(alloc, read.lines.as_slice()) else {
        return Err(Answer::Memory);
    };
    Ok(Handed {
        window: read.window,
        frame: read.frame,
        choices,
        finish: read.finish,
    })
}

// Reads the record of a host that may have been killed.
fn read_handed(alloc: Global, text: &[u8]) -> Result<Handed, Answer>
    requires { length text.now ≤ record_limit }
    ensures { ReadsHanded text.now result }
{
    match read_unfinished(alloc, text) {
        Ok(read) => {
            if read.version != VERSION {
                return Err(Answer::RecordRefused { line: 1 });
            }
            handed_in(alloc, text, &read)
        }
        Err(RecordRefusal::Refused { line }) => Err(Answer::RecordRefused { line: line as u32 }),
        Err(RecordRefusal::Memory) => Err(Answer::Memory),
    }
}

// Reads the report of a host that may have been killed: the episodes of which a trial was adopted.
fn read_adopted(alloc: Global, text: &[u8]) -> Result<Episodes, Answer>
    requires { length text.now ≤ report_limit }
    ensures { ReadsAdopted text.now result }
{
    match read_report(alloc, text) {
        Ok(report) => Ok(report.adopted),
        Err(ReportRefusal::Refused { line }) => Err(Answer::ReportRefused { line: line as u32 }),
        Err(ReportRefusal::Memory) => Err(Answer::Memory),
    }
}

// Reads the record, then the report, then the counts, then the image in the record's window.
fn read_four(alloc: Global, files: &FourFiles) -> Result<Handover, Answer>
    requires recorded { length files.now.recorded.items ≤ record_limit }
    requires reported { length files.now.reported.items ≤ report_limit }
    ensures { ReadsFour (four_in files.now) result }
{
    let handed = match read_handed(alloc, files.recorded.as_slice()) {
        Ok(handed) => handed,
        Err(answer) => return Err(answer),
    };
    let episodes = match read_adopted(alloc, files.reported.as_slice()) {
        Ok(episodes) => episodes,
        Err(answer) => return Err(answer),
    };
    let counts = match read_counted(alloc, files.counts.as_slice()) {
        Ok(counts) => counts,
        Err(answer) => return Err(answer),
    };
    match image_in(alloc, files.program.as_slice(), handed.window << 20) {
        Ok(image) => Ok(Handover {
            image,
            handed,
            episodes,
            counts,
        }),
        Err(answer) => Err(answer),
    }
}

/// Loads a program, the record and the report of the host that was killed, and the counts, and reads the record, the report, the counts and
/// the image.
pub(crate) fn load_handover<F: Files>(
    alloc: Global,
    files: &mut F,
    resume: &ResumeCommand<'_>,
) -> Result<Handover, Answer>
    ensures loads { LoadsHandover (F.told files.old) (resume_shown resume.now) result }
    ensures calls { CallsUpTo (F.calls files.old) (F.calls files.new) (loading_four (resume_shown resume.now)) result }
    ensures same { F.told files.new ≡ F.told files.old }
    ensures later { F.faults files.old ≤ F.faults files.new }
    ensures file_fault { result ≡ Err answer.FileFault → Rose (F.faults files.old) (F.faults files.new) }
{
    let texts = match load_four(alloc, files, resume) {
        Ok(texts) => texts,
        Err(answer) => return Err(answer),
    };
    read_four(alloc, &texts)
}
