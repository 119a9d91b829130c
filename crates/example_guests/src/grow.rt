// A block that grows with all that was received.

/// The text of guest grow.
pub const SOURCE: &str = r#"# Guest grow
#
# It keeps all messages in one block, one behind the other, and sends all of
# them back.
#
# Receives: messages. The reply has the bytes of all messages so far, from any
#           connection.
# Keeps:    s2, the block, null at first; s3, how many bytes are in it.
# Fault:    none, as long as there is room. It doesn't test what realloc answers.
#
# While it answers: s0 is the connection, s1 the message's length.
    li   s2, 0
    li   s3, 0
receive:
    la   a0, buffer
    li   a1, 4096
    li   a7, 1                  # recv: a0 is the length, a1 the connection, a2 the kind
    ecall
    li   t0, 2
    bne  a2, t0, receive        # it isn't a message
    mv   s0, a1
    mv   s1, a0

    mv   a0, s2
    add  a1, s3, s1
    li   a7, 8                  # realloc
    ecall
    mv   s2, a0

    la   t0, buffer             # the message is copied behind the old bytes
    add  t1, t0, s1
    add  t2, s2, s3
copy_byte:
    beq  t0, t1, copied
    lbu  t3, 0(t0)
    sb   t3, 0(t2)
    addi t0, t0, 1
    addi t2, t2, 1
    j    copy_byte
copied:
    add  s3, s3, s1
    mv   a0, s0
    mv   a1, s2
    mv   a2, s3
    li   a7, 2                  # send
    ecall
    j    receive

.data
buffer:
    .space 4096
"#;
