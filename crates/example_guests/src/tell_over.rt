// A block whose place is told, and that is overrun.

/// The text of guest tell_over.
pub const SOURCE: &str = r#"# Guest tell_over
#
# It replies with where its block stands, and then writes past the
# block's end.
#
# Receives: messages, whose bytes don't matter.
# Keeps:    nothing from one message to the next.
# Fault:    40 bytes are written into a block of 16. The word in the block behind is
#           looked at: assertion 5. The reply was given before.
# Helps:    padding, and only while the reply is held back, since padding puts the
#           block elsewhere. Once a client has the reply, nothing helps.
#
# While it answers: s0 is the connection, s1 the block, s2 the block behind.
receive:
    la   a0, buffer
    li   a1, 4096
    li   a7, 1                  # recv: a0 is the length, a1 the connection, a2 the kind
    ecall
    li   t0, 2
    bne  a2, t0, receive        # it isn't a message
    mv   s0, a1

    li   a0, 16
    li   a7, 3                  # malloc
    ecall
    mv   s1, a0
    li   a0, 16
    ecall
    mv   s2, a0
    li   t0, 0x600dcafe
    sw   t0, 0(s2)

    mv   a0, s1
    call write_address
    mv   a0, s0
    la   a1, digits
    li   a2, 9                  # the digits and the line feed
    li   a7, 2                  # send
    ecall

    mv   t0, s1                 # the fault: 40 bytes are written
    addi t1, s1, 40
    li   t2, 0x41
write_byte:
    sb   t2, 0(t0)
    addi t0, t0, 1
    bne  t0, t1, write_byte
    lw   t0, 0(s2)
    li   t1, 0x600dcafe
    beq  t0, t1, word_holds
    li   a0, 5
    li   a7, 6                  # assertion failed
    ecall
word_holds:
    mv   a0, s2
    li   a7, 4                  # free
    ecall
    mv   a0, s1
    ecall
    j    receive

# Writes the number a0 as eight hexadecimal digits to where digits is.
write_address:
    la   t0, digits
    li   t1, 28                 # how far the next digit is shifted
    li   t2, 10
write_digit:
    srl  t3, a0, t1
    andi t3, t3, 15
    addi t4, t3, 48             # `0`
    bltu t3, t2, store_digit
    addi t4, t4, 39             # from the byte behind `9` to `a`
store_digit:
    sb   t4, 0(t0)
    addi t0, t0, 1
    addi t1, t1, -4
    bge  t1, zero, write_digit
    ret

.data
buffer:
    .space 4096
digits:
    .space 8
    .ascii "\n"
"#;
