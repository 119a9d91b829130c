// A block whose place is told, and that is freed twice.

/// The text of guest tell_free.
pub const SOURCE: &str = r#"# Guest tell_free
#
# It replies with where its block stands, and then frees it twice.
#
# Receives: messages, whose bytes don't matter.
# Keeps:    nothing from one message to the next.
# Fault:    the second free is of no live block. The reply was given before it.
# Helps:    delayed freeing. Padding and other places would help as little against the
#           second free, and change the reply besides, which no client may see.
#
# While it answers: s0 is the connection, s1 the block.
receive:
    la   a0, buffer
    li   a1, 4096
    li   a7, 1                  # recv: a0 is the length, a1 the connection, a2 the kind
    ecall
    li   t0, 2
    bne  a2, t0, receive        # it isn't a message
    mv   s0, a1

    li   a0, 16
    li   a7, 3                  # malloc
    ecall
    mv   s1, a0
    call write_address
    mv   a0, s0
    la   a1, digits
    li   a2, 9                  # the digits and the line feed
    li   a7, 2                  # send
    ecall

    mv   a0, s1
    li   a7, 4                  # free
    ecall
    ecall                       # the fault: a0 and a7 are as they were
    j    receive

# Writes the number a0 as eight hexadecimal digits to where digits is.
write_address:
    la   t0, digits
    li   t1, 28                 # how far the next digit is shifted
    li   t2, 10
write_digit:
    srl  t3, a0, t1
    andi t3, t3, 15
    addi t4, t3, 48             # `0`
    bltu t3, t2, store_digit
    addi t4, t4, 39             # from the byte behind `9` to `a`
store_digit:
    sb   t4, 0(t0)
    addi t0, t0, 1
    addi t1, t1, -4
    bge  t1, zero, write_digit
    ret

.data
buffer:
    .space 4096
digits:
    .space 8
    .ascii "\n"
"#;
