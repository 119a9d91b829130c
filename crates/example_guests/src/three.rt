// The least guest. It asks for an item once, with no room for its bytes, and runs past its own end if one comes.

/// The text of guest three.
pub const SOURCE: &str = "addi a7, x0, 1
addi a1, x0, 0
addi a0, x0, 0
ecall
";
