// A reply that depends on where a block stands, before the fault.

/// The text of guest late.
pub const SOURCE: &str = r#"# Guest late
#
# It replies where its block is put in a certain place, and frees it twice there.
#
# Receives: messages, whose bytes and connection don't matter. It sends to
#           connection 0.
# Keeps:    s0, where a block stood that it made and freed at the start.
# Fault:    where a new block is put in that place again, it is freed twice. `a` was
#           sent before it.
# Helps:    delayed freeing. Padding and other places avoid the fault, but then
#           nothing is sent: once a client has the reply, such a run stays behind.
#
# While it answers: s1 is the new block.
    li   a0, 16
    li   a7, 3                  # malloc
    ecall
    mv   s0, a0
    li   a7, 4                  # free: a0 still is the block
    ecall

receive:
    la   a0, buffer
    li   a1, 4096
    li   a7, 1                  # recv: a0 is the length, a1 the connection, a2 the kind
    ecall
    li   t0, 2
    bne  a2, t0, receive        # it isn't a message
    li   a0, 16
    li   a7, 3                  # malloc
    ecall
    mv   s1, a0
    bne  s1, s0, elsewhere

    li   a0, 0
    la   a1, letter_a
    li   a2, 2
    li   a7, 2                  # send
    ecall
    mv   a0, s1
    li   a7, 4                  # free
    ecall
elsewhere:
    mv   a0, s1                 # the fault, unless it is the only one
    li   a7, 4                  # free
    ecall
    j    receive

.data
buffer:
    .space 4096
letter_a:
    .ascii "a\n"
"#;
