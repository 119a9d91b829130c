// The files that a command loads, and the program of a session.
ghost use Rattle.std.specs.Prelude.{◌≡◌, ◌≤◌};
ghost use Rattle.guest_image.specs.Layout.{IsWindow};
ghost use Rattle.rx_base.specs.Faults.{Rose};
ghost use Rattle.rx_serve.specs.Calling.{CallsLoad};
ghost use Rattle.rx_serve.specs.Loading.{LoadsFile, ReadsImage, LoadsImage};

use elf_file::{ElfRefusal, read_image};
use guest_image::Image;
use run_history::Answer;
use rx_base::LoadFault;
use rx_io::Files;
use std::alloc::Global;

/// The greatest number of bytes of a program file: 16 MiB.
pub const MAX_PROGRAM: u64 = 16 << 20;

/// Loads a file of no more than so many bytes.
pub(crate) fn load_file<F: Files>(
    alloc: Global,
    files: &mut F,
    name: &str,
    limit: u64,
) -> Result<Vec<u8>, Answer>
    ensures loads { LoadsFile (F.told files.old) name.now limit result }
    ensures calls { CallsLoad name.now (F.calls files.old) (F.calls files.new) result }
    ensures same { F.told files.new ≡ F.told files.old }
    ensures later { F.faults files.old ≤ F.faults files.new }
    ensures file_fault { result ≡ Err Answer.FileFault → Rose (F.faults files.old) (F.faults files.new) }
{
    match files.load(alloc, name, limit) {
        Ok(file) => Ok(file),
        Err(LoadFault::Failed) => Err(Answer::FileFault),
        Err(LoadFault::TooLarge) => Err(Answer::TooLarge),
        Err(LoadFault::Memory) => Err(Answer::Memory),
    }
}

/// Reads the image of a program file in a window of so many bytes.
pub(crate) fn image_in(alloc: Global, file: &[u8], window: u32) -> Result<Image, Answer>
    requires { IsWindow window }
    ensures { ReadsImage file.now window result }
{
    match read_image(alloc, file, window) {
        Ok(image) => Ok(image),
        Err(ElfRefusal::Refused(kind)) => Err(Answer::ElfRefused(kind)),
        Err(ElfRefusal::Memory) => Err(Answer::Memory),
    }
}

/// Loads a program file, and reads its image in a window of so many bytes.
pub fn load_image<F: Files>(
    alloc: Global,
    files: &mut F,
    name: &str,
    window: u32,
) -> Result<Image, Answer>
    requires { IsWindow window }
    ensures loads { LoadsImage (F.told files.old) name.now window result }
    ensures calls { CallsLoad name.now (F.calls files.old) (F.calls files.new) result }
    ensures same { F.told files.new ≡ F.told files.old }
    ensures later { F.faults files.old ≤ F.faults files.new }
    ensures file_fault { result ≡ Err Answer.FileFault → Rose (F.faults files.old) (F.faults files.new) }
{
    let file = match files.load(alloc, name, MAX_PROGRAM) {
        Ok(file) => file,
        Err(LoadFault::Failed) => return Err(Answer::FileFault),
        Err(LoadFault::TooLarge) => return Err(Answer::TooLarge),
        Err(LoadFault::Memory) => return Err(Answer::Memory),
    };
    match read_image(alloc, file.as_slice(), window) {
        Ok(image) => Ok(image),
        Err(ElfRefusal::Refused(kind)) => Err(Answer::ElfRefused(kind)),
        Err(ElfRefusal::Memory) => Err(Answer::Memory),
    }
}
