// What the operations give: the code of each is a small function, and nothing traps.
ghost use Rattle.std.specs.Prelude.{ℕ, ◌≡◌, ◌<◌, ◌*◌, ◌%◌, ◌^◌};
ghost use Rattle.rv_isa.specs.Meaning.{
  word_difference,
  displaced,
  extended,
  high_mixed,
  high_signed,
  high_unsigned,
  imm_value_of,
  indirect_target,
  is_less_signed,
  is_taken,
  load_size,
  loaded,
  low_product,
  quotient,
  quotient_signed,
  remainder,
  remainder_signed,
  shifted_left,
  shifted_right,
  shifted_right_signed,
  store_size,
  word_sum,
  to_word,
  value_of,
};
ghost use Rattle.rv_isa.specs.Words.{signed};

use crate::{BranchOp, ImmOp, LoadOp, RegOp, StoreOp};

#[inline(always)]
fn signed_of(word: u32) -> i32
    ensures { result ≡ signed 32 word }
{
    word.cast_signed()
}

#[inline(always)]
fn word_from(value: i32) -> u32
    ensures { result ≡ to_word value }
{
    value.cast_unsigned()
}

#[inline(always)]
#[tactic(auto, unfolding(crate::specs::Meaning::word_sum))]
fn add(a: u32, b: u32) -> u32
    ensures { result ≡ word_sum a b }
{
    a.wrapping_add(b)
}

#[inline(always)]
#[tactic(auto, unfolding(crate::specs::Meaning::word_difference))]
fn subtract(a: u32, b: u32) -> u32
    ensures { result ≡ word_difference a b }
{
    a.wrapping_sub(b)
}

#[inline(always)]
#[tactic(auto, unfolding(crate::specs::Meaning::shifted_left))]
fn shift_left(a: u32, b: u32) -> u32
    ensures { result ≡ shifted_left a b }
{
    a << (b & 31)
}

#[inline(always)]
#[tactic(auto, unfolding(crate::specs::Meaning::shifted_right))]
fn shift_right(a: u32, b: u32) -> u32
    ensures { result ≡ shifted_right a b }
{
    a >> (b & 31)
}

#[inline(always)]
#[tactic(auto, unfolding(crate::specs::Meaning::shifted_right_signed))]
fn shift_right_signed(a: u32, b: u32) -> u32
    ensures { result ≡ shifted_right_signed a b }
{
    word_from(signed_of(a) >> (b & 31))
}

#[inline(always)]
#[tactic(auto, unfolding(crate::specs::Meaning::is_less_signed))]
fn less_signed(a: u32, b: u32) -> bool
    ensures { result ≡ is_less_signed a b }
{
    signed_of(a) < signed_of(b)
}

#[inline(always)]
#[tactic(auto, unfolding(crate::specs::Meaning::low_product))]
fn multiply(a: u32, b: u32) -> u32
    ensures { result ≡ low_product a b }
{
    a.wrapping_mul(b)
}

#[inline(always)]
#[tactic(auto, unfolding(crate::specs::Meaning::high_signed))]
fn multiply_high_signed(a: u32, b: u32) -> u32
    ensures { result ≡ high_signed a b }
{
    ((i64::from(signed_of(a)) * i64::from(signed_of(b))).cast_unsigned() >> 32) as u32
}

#[inline(always)]
#[tactic(auto, unfolding(crate::specs::Meaning::high_mixed))]
fn multiply_high_mixed(a: u32, b: u32) -> u32
    ensures { result ≡ high_mixed a b }
{
    ((i64::from(signed_of(a)) * i64::from(b)).cast_unsigned() >> 32) as u32
}

#[inline(always)]
#[tactic(auto, unfolding(crate::specs::Meaning::high_unsigned))]
fn multiply_high(a: u32, b: u32) -> u32
    ensures { result ≡ high_unsigned a b }
{
    (u64::from(a) * u64::from(b) >> 32) as u32
}

#[inline(always)]
#[tactic(auto, unfolding(crate::specs::Meaning::quotient_signed))]
fn divide_signed(a: u32, b: u32) -> u32
    ensures { result ≡ quotient_signed a b }
{
    if b == 0 {
        return u32::MAX;
    }
    word_from(signed_of(a).wrapping_div(signed_of(b)))
}

#[inline(always)]
#[tactic(auto, unfolding(crate::specs::Meaning::quotient))]
fn divide(a: u32, b: u32) -> u32
    ensures { result ≡ quotient a b }
{
    if b == 0 {
        return u32::MAX;
    }
    a / b
}

#[inline(always)]
#[tactic(auto, unfolding(crate::specs::Meaning::remainder_signed))]
fn remain_signed(a: u32, b: u32) -> u32
    ensures { result ≡ remainder_signed a b }
{
    if b == 0 {
        return a;
    }
    word_from(signed_of(a).wrapping_rem(signed_of(b)))
}

#[inline(always)]
#[tactic(auto, unfolding(crate::specs::Meaning::remainder))]
fn remain(a: u32, b: u32) -> u32
    ensures { result ≡ remainder a b }
{
    if b == 0 {
        return a;
    }
    a % b
}

/// What an operation on two registers writes, from the words in them.
#[inline(always)]
pub fn alu(op: RegOp, a: u32, b: u32) -> u32
    ensures { result ≡ value_of op a b }
{
    match op {
        RegOp::Add => add(a, b),
        RegOp::Sub => subtract(a, b),
        RegOp::Sll => shift_left(a, b),
        RegOp::Slt => u32::from(less_signed(a, b)),
        RegOp::Sltu => u32::from(a < b),
        RegOp::Xor => a ^ b,
        RegOp::Srl => shift_right(a, b),
        RegOp::Sra => shift_right_signed(a, b),
        RegOp::Or => a | b,
        RegOp::And => a & b,
        RegOp::Mul => multiply(a, b),
        RegOp::Mulh => multiply_high_signed(a, b),
        RegOp::Mulhsu => multiply_high_mixed(a, b),
        RegOp::Mulhu => multiply_high(a, b),
        RegOp::Div => divide_signed(a, b),
        RegOp::Divu => divide(a, b),
        RegOp::Rem => remain_signed(a, b),
        RegOp::Remu => remain(a, b),
    }
}

/// What an operation on a register and an immediate writes, from the register's word.
#[inline(always)]
pub fn alu_imm(op: ImmOp, a: u32, imm: i32) -> u32
    ensures { result ≡ imm_value_of op a imm }
{
    let b = word_from(imm);
    match op {
        ImmOp::Addi => add(a, b),
        ImmOp::Slti => u32::from(less_signed(a, b)),
        ImmOp::Sltiu => u32::from(a < b),
        ImmOp::Xori => a ^ b,
        ImmOp::Ori => a | b,
        ImmOp::Andi => a & b,
        ImmOp::Slli => shift_left(a, b),
        ImmOp::Srli => shift_right(a, b),
        ImmOp::Srai => shift_right_signed(a, b),
    }
}

/// Whether a branch is taken, from the words of its registers.
#[inline(always)]
pub fn compare(op: BranchOp, a: u32, b: u32) -> bool
    ensures { result ≡ is_taken op a b }
{
    match op {
        BranchOp::Beq => a == b,
        BranchOp::Bne => a != b,
        BranchOp::Blt => less_signed(a, b),
        BranchOp::Bge => !less_signed(a, b),
        BranchOp::Bltu => a < b,
        BranchOp::Bgeu => a >= b,
    }
}

/// The address, or the target of a jump or branch, so far from a base.
#[inline(always)]
#[tactic(auto, unfolding(crate::specs::Meaning::displaced))]
pub fn displace(base: u32, imm: i32) -> u32
    ensures { result ≡ displaced base imm }
{
    base.wrapping_add(word_from(imm))
}

/// The target of a JALR.
#[inline(always)]
#[tactic(auto, unfolding(crate::specs::Meaning::indirect_target))]
pub fn target_of_jalr(base: u32, imm: i32) -> u32
    ensures { result ≡ indirect_target base imm }
{
    displace(base, imm) >> 1 << 1
}

/// The word of an upper immediate, which LUI writes.
#[inline(always)]
pub fn upper_word(imm: i32) -> u32
    ensures { result ≡ to_word imm }
{
    word_from(imm)
}

/// How many bytes a load reads.
#[inline(always)]
pub fn bytes_loaded(op: LoadOp) -> u32
    ensures { result ≡ load_size op }
{
    match op {
        LoadOp::Lb | LoadOp::Lbu => 1,
        LoadOp::Lh | LoadOp::Lhu => 2,
        LoadOp::Lw => 4,
    }
}

#[inline(always)]
#[tactic(auto, unfolding(crate::specs::Meaning::extended))]
fn extend_byte(value: u32) -> u32
    requires { value < 2 ^ 8 }
    ensures { result ≡ extended 8 value }
{
    if value < 0x80 {
        value
    } else {
        value + 0xffff_ff00
    }
}

#[inline(always)]
#[tactic(auto, unfolding(crate::specs::Meaning::extended))]
fn extend_half(value: u32) -> u32
    requires { value < 2 ^ 16 }
    ensures { result ≡ extended 16 value }
{
    if value < 0x8000 {
        value
    } else {
        value + 0xffff_0000
    }
}

/// What a load writes, from the number that the bytes are, the lowest first.
#[inline(always)]
pub fn extend(op: LoadOp, value: u32) -> u32
    requires { value < 2 ^ (8 * load_size op) }
    ensures { result ≡ loaded op value }
{
    match op {
        LoadOp::Lb => extend_byte(value),
        LoadOp::Lh => extend_half(value),
        LoadOp::Lw | LoadOp::Lbu | LoadOp::Lhu => value,
    }
}

/// How many bytes a store writes, the lowest of the register's word.
#[inline(always)]
pub fn bytes_stored(op: StoreOp) -> u32
    ensures { result ≡ store_size op }
{
    match op {
        StoreOp::Sb => 1,
        StoreOp::Sh => 2,
        StoreOp::Sw => 4,
    }
}
