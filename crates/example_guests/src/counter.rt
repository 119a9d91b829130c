// A server with a state.

/// The text of guest counter.
pub const SOURCE: &str = r#"# Guest counter
#
# It replies to each message with the number of messages so far, in
# decimal digits and a line feed.
#
# Receives: messages, whose bytes don't matter.
# Keeps:    s0, the number of messages.
# Fault:    none. Who runs a message twice, or loses one, sees it in the replies.
    li   s0, 0
receive:
    la   a0, buffer
    li   a1, 4096
    li   a7, 1                  # recv: a0 is the length, a1 the connection, a2 the kind
    ecall
    li   t0, 2
    bne  a2, t0, receive        # it isn't a message
    addi s0, s0, 1

# The digits are written from the last one backwards, in front of the line feed.
    la   t0, line_feed
    mv   t1, s0
    li   t2, 10
write_digit:
    remu t3, t1, t2
    divu t1, t1, t2
    addi t3, t3, 48             # `0`
    addi t0, t0, -1
    sb   t3, 0(t0)
    bnez t1, write_digit

    mv   a0, a1
    mv   a1, t0
    la   t1, line_feed
    sub  a2, t1, t0
    addi a2, a2, 1
    li   a7, 2                  # send
    ecall
    j    receive

.data
buffer:
    .space 4096
digits:
    .space 10                   # a number below 2^32 has ten digits at most
line_feed:
    .ascii "\n"
"#;
