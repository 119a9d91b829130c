// Why a program file gives no image.
ghost use Rattle.std.specs.Prelude.{◌≡◌};
ghost use Rattle.elf_file.specs.declared.elf_refusal.ElfRefusal.TheVariants.{Memory};

use std::alloc::AllocError;
use thiserror::Error;

/// Why a program file gives no image.
#[derive(Clone, Copy, Debug, PartialEq, Eq, Error)]
pub enum ElfRefusal {
    /// The first refusal that holds, by its number from 1 to 15.
    #[error("program file refused ({0}): {reason}", reason = reason_of(*.0))]
    Refused(u8),
    /// Memory ran out.
    #[error("memory ran out while a program file was read")]
    Memory,
}

impl From<AllocError> for ElfRefusal {
    ghost from_gives = { λ _ e. e ≡ Memory };

    fn from(_error: AllocError) -> ElfRefusal {
        ElfRefusal::Memory
    }
}

// The field that a refusal is for, and what it says there.
fn reason_of(number: u8) -> &'static str {
    match number {
        1 => "Short: the file ends within its header of 52 bytes",
        2 => "NotElf: e_ident doesn't begin with 7f 45 4c 46",
        3 => "NotClass32: EI_CLASS isn't 1 (ELFCLASS32)",
        4 => "NotLittle: EI_DATA isn't 1 (ELFDATA2LSB)",
        5 => "NotExec: e_type isn't 2 (ET_EXEC), or e_version isn't 1",
        6 => "NotRiscv: e_machine isn't 243 (EM_RISCV)",
        7 => "Flags: e_flags has RVC, a float ABI or RVE",
        8 => "Table: e_phentsize isn't 32, or the program headers pass the file's end",
        9 => "Dynamic: a p_type is 2 (PT_DYNAMIC) or 3 (PT_INTERP)",
        10 => "Tls: a p_type is 7 (PT_TLS)",
        11 =>
            "Segment: a p_filesz is above its p_memsz, or p_offset + p_filesz passes the file's end, or p_vaddr + p_memsz is above 2^32",
        12 => "Overlap: two segments share a byte of memory",
        13 => "NoLoad: no segment has a p_memsz above 0",
        14 =>
            "Entry: e_entry isn't a multiple of 4, or its four bytes aren't all in executable segments",
        15 =>
            "TooLarge: the segments, a page, the stack and its guard don't fit the window below 2^32",
        _ => "there is no such refusal",
    }
}
