// A block that is freed twice.

/// The text of guest twice.
pub const SOURCE: &str = r#"# Guest twice
#
# It frees a block a second time.
#
# Receives: messages, and sends each one back.
# Keeps:    nothing from one message to the next.
# Fault:    the second free is of no live block.
# Helps:    delayed freeing. A block that is freed keeps its place for a while, and
#           freeing it once more does nothing.
#
# While it answers: s0 is the connection, s1 the message's length.
receive:
    la   a0, buffer
    li   a1, 4096
    li   a7, 1                  # recv: a0 is the length, a1 the connection, a2 the kind
    ecall
    li   t0, 2
    bne  a2, t0, receive        # it isn't a message
    mv   s0, a1
    mv   s1, a0

    li   a0, 32
    li   a7, 3                  # malloc
    ecall
    li   a7, 4                  # free
    ecall
    ecall                       # the fault: a0 and a7 are as they were

    mv   a0, s0
    la   a1, buffer
    mv   a2, s1
    li   a7, 2                  # send
    ecall
    j    receive

.data
buffer:
    .space 4096
"#;
