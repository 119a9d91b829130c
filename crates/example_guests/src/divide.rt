// A server that divides without a test.

/// The text of guest divide.
pub const SOURCE: &str = r#"# Guest divide
#
# It reads two signed decimals, with a space between them, and replies
# their quotient and their remainder in the same form.
#
# Receives: messages as `7 -2` and a line feed. A byte that is no digit ends a
#           number, and a number without digits is 0.
# Keeps:    nothing from one message to the next.
# Fault:    none. It divides by whatever it is given. The machine doesn't trap: by
#           zero the quotient is -1 and the remainder the dividend, and
#           -2147483648 by -1 is -2147483648 with the remainder 0.
#
# While it answers: s0 is the connection, s1 the place in the message, s2 the
# message's end, s3 the dividend, s4 the divisor, s5 the reply's first byte.
receive:
    la   a0, buffer
    li   a1, 4096
    li   a7, 1                  # recv: a0 is the length, a1 the connection, a2 the kind
    ecall
    li   t0, 2
    bne  a2, t0, receive        # it isn't a message
    mv   s0, a1
    la   s1, buffer
    add  s2, s1, a0

    call read_number
    mv   s3, a0
    addi s1, s1, 1              # the space
    call read_number
    mv   s4, a0

# The reply is written backwards, in front of its line feed.
    la   s5, line_feed
    rem  a0, s3, s4
    call write_number
    li   t0, 32                 # a space
    addi s5, s5, -1
    sb   t0, 0(s5)
    div  a0, s3, s4
    call write_number

    mv   a0, s0
    mv   a1, s5
    la   t0, line_feed
    sub  a2, t0, s5
    addi a2, a2, 1
    li   a7, 2                  # send
    ecall
    j    receive

# Reads a number from s1 on, and leaves s1 behind it. Gives its value in a0.
read_number:
    li   a0, 0
    li   t1, 10
    li   t2, 0                  # 1 behind a minus
    bgeu s1, s2, sign_number
    lbu  t0, 0(s1)
    li   t3, 45                 # `-`
    bne  t0, t3, read_digit
    li   t2, 1
    addi s1, s1, 1
read_digit:
    bgeu s1, s2, sign_number
    lbu  t0, 0(s1)
    addi t0, t0, -48            # `0`
    bgeu t0, t1, sign_number    # it is no digit
    mul  a0, a0, t1
    add  a0, a0, t0
    addi s1, s1, 1
    j    read_digit
sign_number:
    beqz t2, number_is_read
    sub  a0, zero, a0
number_is_read:
    ret

# Writes the number a0 in front of s5, and leaves s5 at its first byte.
write_number:
    mv   t0, a0
    li   t1, 10
    bge  a0, zero, write_digit
    sub  t0, zero, a0           # read without a sign, this is right for -2147483648 too
write_digit:
    remu t2, t0, t1
    divu t0, t0, t1
    addi t2, t2, 48             # `0`
    addi s5, s5, -1
    sb   t2, 0(s5)
    bnez t0, write_digit
    bge  a0, zero, number_is_written
    li   t2, 45                 # `-`
    addi s5, s5, -1
    sb   t2, 0(s5)
number_is_written:
    ret

.data
buffer:
    .space 4096
reply:
    .space 23                   # two numbers of eleven bytes at most, and the space
line_feed:
    .ascii "\n"
"#;
