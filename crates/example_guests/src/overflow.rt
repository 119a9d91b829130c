// A copy that runs over the end of its block.

/// The text of guest overflow.
pub const SOURCE: &str = r#"# Guest overflow
#
# It copies each message into a block of 16 bytes, and sends it back
# from there.
#
# Receives: messages. One of more than 16 bytes doesn't fit its block.
# Keeps:    nothing from one message to the next.
# Fault:    the copy tests no length. A long message runs into the block behind,
#           whose word is looked at after the copy: assertion 1.
# Helps:    padding. The bytes that are too many then fall into the room between
#           the blocks.
#
# While it answers: s0 is the connection, s1 the message's length, s2 the block of
# the message, s3 the block behind.
receive:
    la   a0, buffer
    li   a1, 4096
    li   a7, 1                  # recv: a0 is the length, a1 the connection, a2 the kind
    ecall
    li   t0, 2
    bne  a2, t0, receive        # it isn't a message
    mv   s0, a1
    mv   s1, a0

    li   a0, 16
    li   a7, 3                  # malloc
    ecall
    mv   s2, a0
    li   a0, 16
    ecall
    mv   s3, a0
    li   t0, 0x600dcafe
    sw   t0, 0(s3)

    la   t0, buffer             # the fault: all of the message is copied
    add  t1, t0, s1
    mv   t2, s2
copy_byte:
    beq  t0, t1, copied
    lbu  t3, 0(t0)
    sb   t3, 0(t2)
    addi t0, t0, 1
    addi t2, t2, 1
    j    copy_byte
copied:
    lw   t0, 0(s3)
    li   t1, 0x600dcafe
    beq  t0, t1, word_holds
    li   a0, 1
    li   a7, 6                  # assertion failed
    ecall
word_holds:
    mv   a0, s0
    mv   a1, s2
    mv   a2, s1
    li   a7, 2                  # send
    ecall
    mv   a0, s3
    li   a7, 4                  # free
    ecall
    mv   a0, s2
    ecall
    j    receive

.data
buffer:
    .space 4096
"#;
