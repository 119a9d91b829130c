// The plainest server.

/// The text of guest echo.
pub const SOURCE: &str = r#"# Guest echo
#
# It sends each message back to its connection.
#
# Receives: messages. Opens and closes get no answer.
# Keeps:    nothing from one item to the next.
# Fault:    none.
receive:
    la   a0, buffer
    li   a1, 4096
    li   a7, 1                  # recv: a0 is the length, a1 the connection, a2 the kind
    ecall
    li   t0, 2
    bne  a2, t0, receive        # it isn't a message
    mv   a2, a0
    mv   a0, a1
    la   a1, buffer
    li   a7, 2                  # send
    ecall
    j    receive

.data
buffer:
    .space 4096
"#;
