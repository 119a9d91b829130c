// Programs that the example guests lack, by their names.
use crate::rows::WINDOW;
use example_guests::source_of;
use guest_image::Image;
use rv_asm::assemble;
use std::alloc::Global;
use std::test::Fail;

// Sends each message to connection 0 and then to connection 1, from wherever it came.
const TELLS_BOTH: &str = r#"receive:
    la   a0, buffer
    li   a1, 4096
    li   a7, 1                  # recv
    ecall
    li   t0, 2
    bne  a2, t0, receive        # it isn't a message
    mv   a2, a0
    li   a0, 0
    la   a1, buffer
    li   a7, 2                  # send
    ecall
    li   a0, 1
    ecall
    j    receive

.data
buffer:
    .space 4096
"#;

// Sends the first message back, and exits with its length.
const ANSWERS_ONCE: &str = r#"receive:
    la   a0, buffer
    li   a1, 4096
    li   a7, 1                  # recv
    ecall
    li   t0, 2
    bne  a2, t0, receive        # it isn't a message
    mv   s0, a0
    mv   a2, a0
    mv   a0, a1
    la   a1, buffer
    li   a7, 2                  # send
    ecall
    mv   a0, s0
    li   a7, 5                  # exit
    ecall

.data
buffer:
    .space 4096
"#;

// Asks for blocks of 17 bytes, of none, of 1 MiB and of 1 byte, frees the second, asks for 3 bytes, and exits.
const ASKS_FOR_BLOCKS: &str = r#"
    li   a7, 3                  # malloc
    li   a0, 17
    ecall
    li   a0, 0
    ecall
    mv   s0, a0
    li   a0, 0x100000
    ecall
    li   a0, 1
    ecall
    mv   a0, s0
    li   a7, 4                  # free
    ecall
    li   a0, 3
    li   a7, 3
    ecall
    li   a0, 0
    li   a7, 5                  # exit
    ecall
"#;

// Frees a block twice at the first message, sends the message back, and exits with its length.
const FREES_TWICE_AND_EXITS: &str = r#"receive:
    la   a0, buffer
    li   a1, 4096
    li   a7, 1                  # recv
    ecall
    li   t0, 2
    bne  a2, t0, receive        # it isn't a message
    mv   s0, a0
    mv   s1, a1
    li   a0, 16
    li   a7, 3                  # malloc
    ecall
    li   a7, 4                  # free
    ecall
    ecall                       # the fault: a0 and a7 are as they were
    mv   a0, s1
    la   a1, buffer
    mv   a2, s0
    li   a7, 2                  # send
    ecall
    mv   a0, s0
    li   a7, 5                  # exit
    ecall

.data
buffer:
    .space 4096
"#;

// At the start it makes a block of 1024 bytes and frees it. At each message it makes a block, writes all of the old one, looks at a word of the
// new one (assertion 4), and sends the message back.
const WRITES_TO_AN_OLD_BLOCK: &str = r#"
    li   a0, 1024
    li   a7, 3                  # malloc
    ecall
    mv   s2, a0
    li   a7, 4                  # free
    ecall
receive:
    la   a0, buffer
    li   a1, 4096
    li   a7, 1                  # recv
    ecall
    li   t0, 2
    bne  a2, t0, receive        # it isn't a message
    mv   s0, a0
    mv   s1, a1
    li   a0, 16
    li   a7, 3                  # malloc
    ecall
    mv   s3, a0
    li   t1, 0x600dcafe
    sw   t1, 0(s3)
    mv   t0, s2
    addi t2, s2, 1024
write_word:
    sw   zero, 0(t0)            # the fault
    addi t0, t0, 4
    bne  t0, t2, write_word
    lw   t0, 0(s3)
    beq  t0, t1, word_holds
    li   a0, 4
    li   a7, 6                  # assertion failed
    ecall
word_holds:
    mv   a0, s1
    la   a1, buffer
    mv   a2, s0
    li   a7, 2                  # send
    ecall
    j    receive

.data
buffer:
    .space 4096
"#;

// At each message it makes two blocks of 16 bytes, writes 40 into the first one, looks at a word of the second (assertion 1), frees the first
// one twice, and sends the message back.
const OVERRUNS_AND_FREES_TWICE: &str = r#"receive:
    la   a0, buffer
    li   a1, 4096
    li   a7, 1                  # recv
    ecall
    li   t0, 2
    bne  a2, t0, receive        # it isn't a message
    mv   s0, a0
    mv   s1, a1
    li   a0, 16
    li   a7, 3                  # malloc
    ecall
    mv   s2, a0
    li   a0, 16
    ecall
    li   t1, 0x600dcafe
    sw   t1, 0(a0)
    mv   t0, s2
    addi t2, s2, 40
write_word:
    sw   zero, 0(t0)            # the first fault
    addi t0, t0, 4
    bne  t0, t2, write_word
    lw   t0, 0(a0)
    beq  t0, t1, word_holds
    li   a0, 1
    li   a7, 6                  # assertion failed
    ecall
word_holds:
    mv   a0, s2
    li   a7, 4                  # free
    ecall
    ecall                       # the second fault: a0 and a7 are as they were
    mv   a0, s1
    la   a1, buffer
    mv   a2, s0
    li   a7, 2                  # send
    ecall
    j    receive

.data
buffer:
    .space 4096
"#;

// It keeps all messages in one block, one behind the other. Where the next one has no room the block is made twice as large, once. Behind each
// message it sums up all bytes of the block, and compares (assertion 9); then it sends all back.
const GROWS_ONCE: &str = r#"
    li   a0, 16
    li   s4, 16                 # the block's size
    li   a7, 3                  # malloc
    ecall
    mv   s2, a0                 # the block
    li   s3, 0                  # how many bytes are in it
    li   s5, 0                  # their sum
receive:
    la   a0, buffer
    li   a1, 4096
    li   a7, 1                  # recv
    ecall
    li   t0, 2
    bne  a2, t0, receive        # it isn't a message
    mv   s0, a1
    mv   s1, a0
    add  t0, s3, s1
    bgeu s4, t0, copy           # it has room
    slli s4, s4, 1              # the fault: it may have none still
    mv   a0, s2
    mv   a1, s4
    li   a7, 8                  # realloc
    ecall
    mv   s2, a0
copy:
    la   t0, buffer
    add  t1, t0, s1
    add  t2, s2, s3
copy_byte:
    beq  t0, t1, copied
    lbu  t3, 0(t0)
    sb   t3, 0(t2)
    add  s5, s5, t3
    addi t0, t0, 1
    addi t2, t2, 1
    j    copy_byte
copied:
    add  s3, s3, s1
    mv   t0, s2
    add  t1, s2, s3
    li   t2, 0
sum_byte:
    beq  t0, t1, summed
    lbu  t3, 0(t0)
    add  t2, t2, t3
    addi t0, t0, 1
    j    sum_byte
summed:
    beq  t2, s5, reply
    li   a0, 9
    li   a7, 6                  # assertion failed
    ecall
reply:
    mv   a0, s0
    mv   a1, s2
    mv   a2, s3
    li   a7, 2                  # send
    ecall
    j    receive

.data
buffer:
    .space 4096
"#;

// The text of a program of this crate.
fn own_source_of(name: &str) -> Option<&'static str> {
    match name {
        "tells_both" => Some(TELLS_BOTH),
        "answers_once" => Some(ANSWERS_ONCE),
        "asks_for_blocks" => Some(ASKS_FOR_BLOCKS),
        "frees_twice_and_exits" => Some(FREES_TWICE_AND_EXITS),
        "writes_to_an_old_block" => Some(WRITES_TO_AN_OLD_BLOCK),
        "overruns_and_frees_twice" => Some(OVERRUNS_AND_FREES_TWICE),
        "grows_once" => Some(GROWS_ONCE),
        _ => None,
    }
}

/// The image of an example guest, or of a program of this crate, by its name. Its window has 1 MiB.
pub fn image_of(alloc: Global, name: &str) -> Result<Image, Fail> {
    let text = match source_of(name) {
        Some(text) => text,
        None => own_source_of(name).ok_or("no such program")?,
    };
    Ok(assemble(alloc, text.as_bytes(), WINDOW)?)
}
