// Statements, with their operands as data.
ghost use Rattle.std.specs.Prelude.{◌≡◌, ◌≤◌, length};
ghost use Rattle.asm_lines.specs.Statements.{characters, size_of};

use crate::form::Section;
use crate::part::Part;
use rv_isa::{BranchOp, Instr};

/// A statement with its operands. What a label stands for isn't known yet.
#[derive(Debug, Drop)]
pub enum Statement<'a> {
    /// The statements behind it go into this section.
    Into(Section),
    /// An instruction in one word.
    Instruction(Instr),
    /// A branch to a label.
    Branch {
        op: BranchOp,
        rs1: u8,
        rs2: u8,
        label: Part<'a>,
    },
    /// A jump to a label, with the return address in `rd`.
    Jump {
        rd: u8,
        label: Part<'a>,
    },
    /// A number into a register, in two instructions.
    LoadNumber {
        rd: u8,
        value: u32,
    },
    /// The address of a label into a register, in two instructions.
    LoadAddress {
        rd: u8,
        label: Part<'a>,
    },
    /// A number in four bytes.
    Word(u32),
    /// The address of a label in four bytes.
    Address(Part<'a>),
    Byte(u8),
    /// So many zeros.
    Space(u32),
    /// A text as it is written between its quotes.
    Ascii(Part<'a>),
}

/// How many characters a text has.
pub fn count_characters(text: &[u8]) -> usize
    ensures value { result ≡ length (characters text.now) }
    ensures bound { result ≤ length text.now }
{
    let mut count = 0;
    let mut rest = text;
    'bytes: while let [_, behind @ ..] = rest {
        count += 1;
        if let [b'\\', b'n', more @ ..] = rest {
            rest = more;
            continue 'bytes;
        }
        rest = behind;
    }
    count
}

impl Statement<'_> {
    /// How many bytes the statement gives its section.
    pub fn size(&self) -> usize
        ensures { result ≡ size_of self.now }
    {
        match self {
            Statement::Into(_) => 0,
            Statement::Instruction(_) | Statement::Branch { .. } | Statement::Jump { .. } => 4,
            Statement::LoadNumber { .. } | Statement::LoadAddress { .. } => 8,
            Statement::Word(_) | Statement::Address(_) => 4,
            Statement::Byte(_) => 1,
            Statement::Space(count) => *count as usize,
            Statement::Ascii(text) => count_characters(text.as_slice()),
        }
    }
}
