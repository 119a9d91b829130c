// The ELF header: the refusals 1 to 8.
ghost use Rattle.std.specs.Prelude.{◌≡◌, ◌≤◌, false, length};
ghost use Rattle.elf_file.specs.Refusals.{short, not_elf, not_class_32, not_little, not_exec, not_riscv, bad_flags, bad_table, header_refusal};

use crate::fields::{half_at, word_at};

/// How many bytes the ELF header has.
pub const HEADER: usize = 52;

/// How many bytes a program header has.
pub const PROGRAM_HEADER: usize = 32;

// Where the fields of the ELF header begin.
pub const EI_CLASS: usize = 4;

pub const EI_DATA: usize = 5;

pub const E_TYPE: usize = 16;

pub const E_MACHINE: usize = 18;

pub const E_VERSION: usize = 20;

pub const E_ENTRY: usize = 24;

pub const E_PHOFF: usize = 28;

pub const E_FLAGS: usize = 36;

pub const E_PHENTSIZE: usize = 42;

pub const E_PHNUM: usize = 44;

// Whether the file begins with another magic number.
#[tactic(auto, unfolding(crate::specs::Refusals::not_elf))]
fn is_not_elf(bytes: &[u8]) -> bool
    requires { 52 ≤ length bytes.now }
    ensures { result ≡ not_elf bytes.now }
{
    !(bytes[0] == 0x7f && bytes[1] == b'E' && bytes[2] == b'L' && bytes[3] == b'F')
}

// Whether the file has another class than 32 bits.
#[tactic(auto, unfolding(crate::specs::Refusals::not_class_32))]
fn is_not_class_32(bytes: &[u8]) -> bool
    requires { 52 ≤ length bytes.now }
    ensures { result ≡ not_class_32 bytes.now }
{
    bytes[EI_CLASS] != 1
}

// Whether the file has another byte order.
#[tactic(auto, unfolding(crate::specs::Refusals::not_little))]
fn is_not_little(bytes: &[u8]) -> bool
    requires { 52 ≤ length bytes.now }
    ensures { result ≡ not_little bytes.now }
{
    bytes[EI_DATA] != 1
}

// Whether the file is no executable, or of another version.
#[tactic(auto, unfolding(crate::specs::Refusals::not_exec))]
fn is_not_exec(bytes: &[u8]) -> bool
    requires { 52 ≤ length bytes.now }
    ensures { result ≡ not_exec bytes.now }
{
    half_at(bytes, E_TYPE) != 2 || word_at(bytes, E_VERSION) != 1
}

// Whether the file is for another machine.
#[tactic(auto, unfolding(crate::specs::Refusals::not_riscv))]
fn is_not_riscv(bytes: &[u8]) -> bool
    requires { 52 ≤ length bytes.now }
    ensures { result ≡ not_riscv bytes.now }
{
    half_at(bytes, E_MACHINE) != 243
}

// Whether the file needs compressed instructions, floats in registers, or half of the registers.
#[tactic(auto, unfolding(crate::specs::Refusals::bad_flags))]
fn has_bad_flags(bytes: &[u8]) -> bool
    requires { 52 ≤ length bytes.now }
    ensures { result ≡ bad_flags bytes.now }
{
    word_at(bytes, E_FLAGS) % 16 != 0
}

// Whether the program headers have another size, or don't lie in the file.
#[tactic(auto, unfolding(crate::specs::Refusals::bad_table))]
fn has_bad_table(bytes: &[u8]) -> bool
    requires { 52 ≤ length bytes.now }
    ensures { result ≡ bad_table bytes.now }
{
    let count = half_at(bytes, E_PHNUM) as usize;
    let end = word_at(bytes, E_PHOFF) as usize + PROGRAM_HEADER * count;
    count != 0 && (half_at(bytes, E_PHENTSIZE) != 32 || bytes.len() < end)
}

/// The first refusal of the ELF header, by its number.
#[tactic(auto, unfolding(crate::specs::Refusals::header_refusal, crate::specs::Refusals::short))]
pub fn refusal_of_header(bytes: &[u8]) -> Option<u8>
    ensures { result ≡ header_refusal bytes.now }
{
    if bytes.len() < HEADER {
        return Some(1);
    }
    if is_not_elf(bytes) {
        return Some(2);
    }
    if is_not_class_32(bytes) {
        return Some(3);
    }
    if is_not_little(bytes) {
        return Some(4);
    }
    if is_not_exec(bytes) {
        return Some(5);
    }
    if is_not_riscv(bytes) {
        return Some(6);
    }
    if has_bad_flags(bytes) {
        return Some(7);
    }
    if has_bad_table(bytes) {
        return Some(8);
    }
    None
}
