// A server that writes many pages.

/// The text of guest dirty.
pub const SOURCE: &str = r#"# Guest dirty
#
# It writes to each page of a large block at every item, so that each
# checkpoint costs much room.
#
# Receives: items of every kind, and sends each message back.
# Keeps:    s2, a block of 65536 bytes.
# Fault:    none. Few checkpoints fit into the room that there is for them.
#
# While it answers: s0 is the connection, s1 the message's length.
    li   a0, 65536
    li   a7, 3                  # malloc
    ecall
    mv   s2, a0

receive:
    la   a0, buffer
    li   a1, 4096
    li   a7, 1                  # recv: a0 is the length, a1 the connection, a2 the kind
    ecall
    mv   s0, a1
    mv   s1, a0

    li   t0, 65536              # one byte in each 4096, which is the item's kind
    add  t0, s2, t0
    li   t1, 4096
    mv   t2, s2
write_page:
    sb   a2, 0(t2)
    add  t2, t2, t1
    bne  t2, t0, write_page

    li   t0, 2
    bne  a2, t0, receive        # it isn't a message
    mv   a0, s0
    la   a1, buffer
    mv   a2, s1
    li   a7, 2                  # send
    ecall
    j    receive

.data
buffer:
    .space 4096
"#;
