// Columns of rows, and the memory of a small executable.
use elf_file::read_image;
use guest_space::GuestSpace;
use std::alloc::Global;
use std::test::Fail;

/// An executable with eight bytes that may be read and executed at 0x10000, and behind them eight that may be read and
/// written, of which four are in the file; byte by byte from the System V ABI's "ELF Header" and "Program Header".
#[rattlefmt::skip]
pub static TEXT_AND_DATA: [u8; 128] = [
    0x7f, 0x45, 0x4c, 0x46, 1, 1, 1, 0, 0, 0, 0, 0, 0, 0, 0, 0, // e_ident
    2, 0, 243, 0, 1, 0, 0, 0, // e_type, e_machine, e_version
    0, 0, 1, 0, 52, 0, 0, 0, 0, 0, 0, 0, 0, 0, 0, 0, // e_entry, e_phoff, e_shoff, e_flags
    52, 0, 32, 0, 2, 0, 0, 0, 0, 0, 0, 0, // e_ehsize, e_phentsize, e_phnum, and no sections
    1, 0, 0, 0, 116, 0, 0, 0, 0, 0, 1, 0, 0, 0, 1, 0, // PT_LOAD, p_offset, p_vaddr, p_paddr
    8, 0, 0, 0, 8, 0, 0, 0, 5, 0, 0, 0, 1, 0, 0, 0, // p_filesz, p_memsz, p_flags, p_align
    1, 0, 0, 0, 124, 0, 0, 0, 8, 0, 1, 0, 8, 0, 1, 0, // PT_LOAD, p_offset, p_vaddr, p_paddr
    4, 0, 0, 0, 8, 0, 0, 0, 6, 0, 0, 0, 1, 0, 0, 0, // p_filesz, p_memsz, p_flags, p_align
    0x13, 0x05, 0x10, 0x00, 0x73, 0x00, 0x00, 0x00,
    0xa1, 0xb2, 0xc3, 0xd4,
];

/// Reads columns of hexadecimal digits, one for each number. Where a dash stands the number stays, and behind `#` the rest.
pub fn read_numbers(columns: &str, numbers: &mut [u32]) -> Result<(), Fail> {
    for (number, digits) in numbers.iter_mut().zip(columns.split_whitespace()) {
        if digits == "#" {
            return Ok(());
        }
        if digits != "-" {
            *number = u32::from_str_radix(digits, 16)?;
        }
    }
    Ok(())
}

/// The memory of an executable in a window of 4 MiB.
pub fn space_of(alloc: Global, file: &[u8]) -> Result<GuestSpace, Fail> {
    let image = read_image(alloc, file, 4 << 20)?;
    Ok(GuestSpace::make(alloc, &image, 1, 2 * (image.window / 4096))?)
}
