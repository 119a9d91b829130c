// A block that is read before it is written.

/// The text of guest unset.
pub const SOURCE: &str = r#"# Guest unset
#
# It takes a new block to be full of zeros.
#
# Receives: messages, and sends each one back.
# Keeps:    nothing from one message to the next.
# Fault:    the second block is read before it is written. It has the bytes that the
#           first one left there: assertion 2.
# Helps:    zero-filling.
#
# While it answers: s0 is the connection, s1 the message's length.
receive:
    la   a0, buffer
    li   a1, 4096
    li   a7, 1                  # recv: a0 is the length, a1 the connection, a2 the kind
    ecall
    li   t0, 2
    bne  a2, t0, receive        # it isn't a message
    mv   s0, a1
    mv   s1, a0

    li   a0, 64
    li   a7, 3                  # malloc
    ecall
    mv   t0, a0                 # the first block is filled with words 1
    addi t1, a0, 64
    li   t2, 1
fill_word:
    sw   t2, 0(t0)
    addi t0, t0, 4
    bne  t0, t1, fill_word
    li   a7, 4                  # free: a0 still is the block
    ecall

    li   a0, 64
    li   a7, 3                  # malloc
    ecall
    lw   t0, 0(a0)              # the fault: nothing was written there
    beqz t0, word_is_zero
    li   a0, 2
    li   a7, 6                  # assertion failed
    ecall
word_is_zero:
    li   a7, 4                  # free: a0 still is the block
    ecall

    mv   a0, s0
    la   a1, buffer
    mv   a2, s1
    li   a7, 2                  # send
    ecall
    j    receive

.data
buffer:
    .space 4096
"#;
