// The command `asm`: a text is loaded, assembled, and written as an executable.
ghost use Rattle.std.specs.Prelude.{◌≡◌, ◌≤◌};
ghost use Rattle.rx_base.specs.Faults.{Rose};
ghost use Rattle.rx_serve.specs.Calling.{CallsLoad, CallsWrite, CallsAsm};
ghost use Rattle.rx_serve.specs.Assembly.{LoadsText, Writes, Assembles, HasAsmCause};

use elf_file::write_image;
use guest_image::Image;
use run_history::Answer;
use rv_asm::{AsmRefusal, assemble};
use rx_base::{IoFault, LoadFault};
use rx_io::Files;
use std::alloc::Global;

/// The greatest number of bytes of a text.
pub const MAX_SOURCE: u64 = 16 << 20;

/// The window that a text is assembled for.
const ASSEMBLY_WINDOW: u32 = 1 << 20;

// Loads a text and assembles it.
fn load_text<F: Files>(alloc: Global, files: &mut F, name: &str) -> Result<Image, Answer>
    ensures loads { LoadsText (F.told files.old) name.now (F.faults files.old) (F.faults files.new) result }
    ensures calls { CallsLoad name.now (F.calls files.old) (F.calls files.new) result }
    ensures same { F.told files.new ≡ F.told files.old }
    ensures later { F.faults files.old ≤ F.faults files.new }
{
    let text = match files.load(alloc, name, MAX_SOURCE) {
        Ok(text) => text,
        Err(LoadFault::Failed) => return Err(Answer::FileFault),
        Err(LoadFault::TooLarge) => return Err(Answer::TooLarge),
        Err(LoadFault::Memory) => return Err(Answer::Memory),
    };
    match assemble(alloc, text.as_slice(), ASSEMBLY_WINDOW) {
        Ok(image) => Ok(image),
        Err(AsmRefusal::Refused { kind, line }) => Err(Answer::AsmRefused { kind, line }),
        Err(AsmRefusal::Memory) => Err(Answer::Memory),
    }
}

/// Makes a file of these bytes.
pub(crate) fn write_file<F: Files>(files: &mut F, name: &str, bytes: &[u8]) -> Answer
    ensures writes { Writes (F.told files.old) (F.told files.new) name.now bytes.now result }
    ensures calls { CallsWrite name.now (F.calls files.old) (F.calls files.new) result }
    ensures later { F.faults files.old ≤ F.faults files.new }
    ensures file_fault { result ≡ Answer.FileFault → Rose (F.faults files.old) (F.faults files.new) }
{
    match files.start(name) {
        Ok(()) => {}
        Err(IoFault::Failed) => return Answer::FileFault,
        Err(IoFault::Memory) => return Answer::Memory,
    }
    match files.add(name, bytes) {
        Ok(()) => Answer::Finished,
        Err(IoFault::Failed) => Answer::FileFault,
        Err(IoFault::Memory) => Answer::Memory,
    }
}

/// Assembles the text of one name, and writes its executable under another.
pub fn assemble_file<F: Files>(alloc: Global, files: &mut F, source: &str, out: &str) -> Answer
    ensures assembles { Assembles (F.told files.old) (F.told files.new) source.now out.now result }
    ensures calls { CallsAsm source.now out.now (F.calls files.old) (F.calls files.new) result }
    ensures cause { HasAsmCause (F.told files.old) source.now result }
    ensures later { F.faults files.old ≤ F.faults files.new }
    ensures file_fault { result ≡ Answer.FileFault → Rose (F.faults files.old) (F.faults files.new) }
{
    let image = match load_text(alloc, files, source) {
        Ok(image) => image,
        Err(answer) => return answer,
    };
    match write_image(alloc, &image) {
        Ok(bytes) => write_file(files, out, bytes.as_slice()),
        Err(_) => Answer::Memory,
    }
}
