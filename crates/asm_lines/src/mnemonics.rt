// The table of statements.
ghost use Rattle.std.specs.Prelude.{◌≡◌};
ghost use Rattle.asm_lines.specs.Mnemonics.{form_of, stands_in, gives_bytes};

use crate::form::{Form, Section};
use crate::tables::look_up;
use rv_isa::{BranchOp, ImmOp, LoadOp, RegOp, StoreOp};

// Each mnemonic, and the form of its operands (RISC-V unprivileged manual; "RISC-V Assembly Programmer's Manual").
#[rattlefmt::skip]
static MNEMONICS: [(&str, Form); 63] = [
    ("add", Form::Op(RegOp::Add)), ("sub", Form::Op(RegOp::Sub)), ("sll", Form::Op(RegOp::Sll)), ("slt", Form::Op(RegOp::Slt)),
    ("sltu", Form::Op(RegOp::Sltu)), ("xor", Form::Op(RegOp::Xor)), ("srl", Form::Op(RegOp::Srl)), ("sra", Form::Op(RegOp::Sra)),
    ("or", Form::Op(RegOp::Or)), ("and", Form::Op(RegOp::And)), ("mul", Form::Op(RegOp::Mul)), ("mulh", Form::Op(RegOp::Mulh)),
    ("mulhsu", Form::Op(RegOp::Mulhsu)), ("mulhu", Form::Op(RegOp::Mulhu)), ("div", Form::Op(RegOp::Div)), ("divu", Form::Op(RegOp::Divu)),
    ("rem", Form::Op(RegOp::Rem)), ("remu", Form::Op(RegOp::Remu)),
    ("addi", Form::OpImm(ImmOp::Addi)), ("slti", Form::OpImm(ImmOp::Slti)), ("sltiu", Form::OpImm(ImmOp::Sltiu)), ("xori", Form::OpImm(ImmOp::Xori)),
    ("ori", Form::OpImm(ImmOp::Ori)), ("andi", Form::OpImm(ImmOp::Andi)), ("slli", Form::OpImm(ImmOp::Slli)), ("srli", Form::OpImm(ImmOp::Srli)),
    ("srai", Form::OpImm(ImmOp::Srai)),
    ("lb", Form::Load(LoadOp::Lb)), ("lh", Form::Load(LoadOp::Lh)), ("lw", Form::Load(LoadOp::Lw)), ("lbu", Form::Load(LoadOp::Lbu)),
    ("lhu", Form::Load(LoadOp::Lhu)), ("jalr", Form::Jalr),
    ("sb", Form::Store(StoreOp::Sb)), ("sh", Form::Store(StoreOp::Sh)), ("sw", Form::Store(StoreOp::Sw)),
    ("beq", Form::Branch(BranchOp::Beq)), ("bne", Form::Branch(BranchOp::Bne)), ("blt", Form::Branch(BranchOp::Blt)), ("bge", Form::Branch(BranchOp::Bge)),
    ("bltu", Form::Branch(BranchOp::Bltu)), ("bgeu", Form::Branch(BranchOp::Bgeu)),
    ("beqz", Form::BranchZero(BranchOp::Beq)), ("bnez", Form::BranchZero(BranchOp::Bne)),
    ("jal", Form::Jal), ("j", Form::Jump(0)), ("call", Form::Jump(1)), ("la", Form::La),
    ("lui", Form::Lui), ("auipc", Form::Auipc), ("li", Form::Li),
    ("mv", Form::Mv),
    ("ecall", Form::Ecall), ("ebreak", Form::Ebreak), ("fence", Form::Fence), ("nop", Form::Nop), ("ret", Form::Ret),
    (".text", Form::Into(Section::Text)), (".data", Form::Into(Section::Data)),
    (".word", Form::Word), (".byte", Form::Byte), (".space", Form::Space), (".ascii", Form::Ascii),
];

/// The form that a mnemonic asks for.
pub fn form_of(name: &[u8]) -> Option<Form>
    ensures { result ≡ form_of name.now }
{
    look_up(&MNEMONICS, name)
}

/// Whether a statement may stand in this section.
pub fn stands_in(section: Section, form: Form) -> bool
    ensures { result ≡ stands_in section form }
{
    match form {
        Form::Into(_) | Form::Word => true,
        Form::Byte | Form::Space | Form::Ascii => section == Section::Data,
        _ => section == Section::Text,
    }
}

/// Whether a statement gives its section bytes.
pub fn gives_bytes(form: Form) -> bool
    ensures { result ≡ gives_bytes form }
{
    !matches!(form, Form::Into(_))
}
