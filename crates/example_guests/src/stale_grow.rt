// A block that is read where it stood before it grew.

/// The text of guest stale_grow.
pub const SOURCE: &str = r#"# Guest stale_grow
#
# It makes a block larger, and reads it where it stood before.
#
# Receives: messages, and sends each one back.
# Keeps:    nothing from one message to the next. The two blocks of each stay.
# Fault:    a block of 32 bytes gets a word and is made larger, which moves it.
#           Another block of 32 bytes is filled. Then the word is read through the
#           old pointer. Where the other block was put there, the word is gone:
#           assertion 7.
# Helps:    delayed freeing. The old block then keeps its place and its word.
#
# While it answers: s0 is the connection, s1 the message's length, s2 the block before
# it grew, s3 the block since then.
receive:
    la   a0, buffer
    li   a1, 4096
    li   a7, 1                  # recv: a0 is the length, a1 the connection, a2 the kind
    ecall
    li   t0, 2
    bne  a2, t0, receive        # it isn't a message
    mv   s0, a1
    mv   s1, a0

    li   a0, 32
    li   a7, 3                  # malloc
    ecall
    mv   s2, a0
    li   t0, 0x600dcafe
    sw   t0, 0(s2)
    li   a1, 64
    li   a7, 8                  # realloc: a0 still is the block
    ecall
    mv   s3, a0

    li   a0, 32
    li   a7, 3                  # malloc
    ecall
    mv   t0, a0                 # the other block is filled with words 2, and stays
    addi t1, a0, 32
    li   t2, 2
fill_word:
    sw   t2, 0(t0)
    addi t0, t0, 4
    bne  t0, t1, fill_word

    lw   t0, 0(s2)              # the fault: the word is in s3's block now
    li   t1, 0x600dcafe
    beq  t0, t1, echo
    li   a0, 7
    li   a7, 6                  # assertion failed
    ecall

echo:
    mv   a0, s0
    la   a1, buffer
    mv   a2, s1
    li   a7, 2                  # send
    ecall
    j    receive

.data
buffer:
    .space 4096
"#;
