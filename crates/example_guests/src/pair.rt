// Two clients that have to be told one thing.

/// The text of guest pair.
pub const SOURCE: &str = r#"# Guest pair
#
# It does one of two things, by where its block is put, and tells two
# clients which.
#
# Receives: messages, whose bytes and connection don't matter. It sends to
#           connections 0 and 1.
# Keeps:    s0, where a block stood that it made and freed at the start.
# Fault:    where a new block is put in that place again, it is freed twice.
# Helps:    delayed freeing. The fault comes after `a` went to connection 0. Padding
#           and other places avoid the fault, but then connection 0 is told `x`: a
#           client can't be told both.
#
# While it answers: s1 is the new block.
    li   a0, 16
    li   a7, 3                  # malloc
    ecall
    mv   s0, a0
    li   a7, 4                  # free: a0 still is the block
    ecall

receive:
    la   a0, buffer
    li   a1, 4096
    li   a7, 1                  # recv: a0 is the length, a1 the connection, a2 the kind
    ecall
    li   t0, 2
    bne  a2, t0, receive        # it isn't a message
    li   a0, 16
    li   a7, 3                  # malloc
    ecall
    mv   s1, a0
    bne  s1, s0, elsewhere

    li   a0, 0
    la   a1, letter_a
    li   a2, 2
    li   a7, 2                  # send
    ecall
    mv   a0, s1
    li   a7, 4                  # free
    ecall
    ecall                       # the fault: a0 and a7 are as they were
    li   a0, 1
    la   a1, letter_b
    li   a2, 2
    li   a7, 2                  # send
    ecall
    j    receive

elsewhere:
    li   a0, 1
    la   a1, letter_b
    li   a2, 2
    li   a7, 2                  # send
    ecall
    li   a0, 0
    la   a1, letter_x
    li   a2, 2
    ecall
    mv   a0, s1
    li   a7, 4                  # free
    ecall
    j    receive

.data
buffer:
    .space 4096
letter_a:
    .ascii "a\n"
letter_b:
    .ascii "b\n"
letter_x:
    .ascii "x\n"
"#;
