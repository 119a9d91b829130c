// A block that is read after it was freed.

/// The text of guest stale.
pub const SOURCE: &str = r#"# Guest stale
#
# It reads through a pointer to a block that was freed a message before.
#
# Receives: messages, and sends each one back.
# Keeps:    s2, the number of messages so far, but 2 for any more; s3, where the first
#           block was.
# Fault:    at the first message a block gets a word and is freed, and another one of
#           its size is filled. At the second message the word is read again, through
#           the old pointer. Where the other block was put in the same place, the word
#           is gone: assertion 3. So the failure comes an item later than its reason.
# Helps:    delayed freeing, and only from before the first message on: the other block
#           then has to stand elsewhere.
#
# While it answers: s0 is the connection, s1 the message's length.
    li   s2, 0
receive:
    la   a0, buffer
    li   a1, 4096
    li   a7, 1                  # recv: a0 is the length, a1 the connection, a2 the kind
    ecall
    li   t0, 2
    bne  a2, t0, receive        # it isn't a message
    mv   s0, a1
    mv   s1, a0
    beqz s2, first_message
    li   t0, 1
    beq  s2, t0, second_message
    j    echo

first_message:
    li   s2, 1
    li   a0, 64
    li   a7, 3                  # malloc
    ecall
    mv   s3, a0
    li   t0, 0x600dcafe
    sw   t0, 0(s3)
    li   a7, 4                  # free: a0 still is the block
    ecall
    li   a0, 64
    li   a7, 3                  # malloc
    ecall
    mv   t0, a0                 # the other block is filled with words 2, and stays
    addi t1, a0, 64
    li   t2, 2
fill_word:
    sw   t2, 0(t0)
    addi t0, t0, 4
    bne  t0, t1, fill_word
    j    echo

second_message:
    li   s2, 2
    lw   t0, 0(s3)              # the fault: that block was freed
    li   t1, 0x600dcafe
    beq  t0, t1, echo
    li   a0, 3
    li   a7, 6                  # assertion failed
    ecall

echo:
    mv   a0, s0
    la   a1, buffer
    mv   a2, s1
    li   a7, 2                  # send
    ecall
    j    receive

.data
buffer:
    .space 4096
"#;
