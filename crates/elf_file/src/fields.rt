// The numbers in the fields of a program file.
ghost use Rattle.std.specs.Prelude.{◌≡◌, ◌+◌, ◌≤◌, length};
ghost use Rattle.elf_file.specs.ProgramFile.{number_at};

use byteorder::{ByteOrder, LittleEndian};

/// The number in the two bytes at an offset (`Elf32_Half`).
pub fn half_at(bytes: &[u8], offset: usize) -> u16
    requires { offset + 2 ≤ length bytes.now }
    ensures { result ≡ number_at offset 2 bytes.now }
{
    let (_, field) = bytes.split_at(offset);
    LittleEndian::read_u16(field)
}

/// The number in the four bytes at an offset (`Elf32_Word`, `Elf32_Addr` and `Elf32_Off`).
pub fn word_at(bytes: &[u8], offset: usize) -> u32
    requires { offset + 4 ≤ length bytes.now }
    ensures { result ≡ number_at offset 4 bytes.now }
{
    let (_, field) = bytes.split_at(offset);
    LittleEndian::read_u32(field)
}
