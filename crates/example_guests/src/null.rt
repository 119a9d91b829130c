// A fault that nothing helps against.

/// The text of guest null.
pub const SOURCE: &str = r#"# Guest null
#
# It loads a word from address 0 on each message.
#
# Receives: messages, whose bytes don't matter.
# Keeps:    nothing.
# Fault:    the load. No area has address 0, so it is refused.
# Helps:    nothing. No placement of blocks changes where it loads from.
receive:
    la   a0, buffer
    li   a1, 4096
    li   a7, 1                  # recv: a0 is the length, a1 the connection, a2 the kind
    ecall
    li   t0, 2
    bne  a2, t0, receive        # it isn't a message
    lw   t0, 0(zero)            # the fault
    j    receive

.data
buffer:
    .space 4096
"#;
