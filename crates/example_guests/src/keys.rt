// A small store of keys and values.

/// The text of guest keys.
pub const SOURCE: &str = r#"# Guest keys
#
# It keeps a table of keys and their values, which clients set and get.
#
# Receives: messages of one line each.
#   `set KEY VALUE`  puts the pair into the table, in the place of the key's old value
#                    if there is one. Replies `ok`, or `full` where the key is new and
#                    the table has 128 pairs.
#   `get KEY`        replies the value, or `none`.
#   Any other line   replies `bad`. A key and a value have 1 to 64 bytes, without spaces.
# Keeps:    the table, and s11, the number of its pairs.
# Fault:    each set and get copies its key into a block of 16 bytes and tests no
#           length. A longer key runs into the block behind, whose word is looked at
#           after the copy: assertion 6. The word's first byte in memory is 0xfe, which
#           no ASCII text has.
# Helps:    padding. The bytes that are too many then fall into the room between the
#           blocks.
#
# A pair in the table has 140 bytes: the key's length at 0, the value's length with its
# line feed at 4, the key at 8, the value and its line feed at 72.
#
# While it answers: s0 is the connection, s1 the message's end, s2 the key, s3 its
# length, s4 the value, s5 its length with its line feed, s6 is 1 at a set and 0 at a
# get, s7 is the block of the key, s8 the block behind, s9 a pair in the table, s10 how
# many pairs there are from it on. At the end s4 and s5 are the reply.
    li   s11, 0
receive:
    la   a0, buffer
    li   a1, 4096
    li   a7, 1                  # recv: a0 is the length, a1 the connection, a2 the kind
    ecall
    li   t0, 2
    bne  a2, t0, receive        # it isn't a message
    mv   s0, a1
    la   s2, buffer
    add  s1, s2, a0

# The line is read whole before anything is done for it.
    li   t0, 4
    bltu a0, t0, bad_line
    lw   t0, 0(s2)
    addi s2, s2, 4
    li   s6, 1
    li   t1, 0x20746573         # `set ` as a word
    beq  t0, t1, read_key
    li   s6, 0
    li   t1, 0x20746567         # `get ` as a word
    bne  t0, t1, bad_line
read_key:
    mv   a0, s2
    call measure
    mv   s3, a0
    addi t0, s3, -1
    li   t1, 64
    bgeu t0, t1, bad_line
    add  s4, s2, s3             # what stands behind the key
    beqz s6, end_line

    beq  s4, s1, bad_line
    lbu  t0, 0(s4)
    li   t1, 32                 # a space
    bne  t0, t1, bad_line
    addi s4, s4, 1
    mv   a0, s4
    call measure
    addi s5, a0, 1
    addi t0, a0, -1
    li   t1, 64
    bgeu t0, t1, bad_line
    add  t0, s4, a0
    j    end_with_line_feed
end_line:
    mv   t0, s4
end_with_line_feed:
    addi t1, t0, 1
    bne  t1, s1, bad_line       # the message's last byte stands here
    lbu  t0, 0(t0)
    li   t1, 10
    bne  t0, t1, bad_line       # and it is the line feed

# The key's copy, and the word behind it.
    li   a0, 16
    li   a7, 3                  # malloc
    ecall
    mv   s7, a0
    li   a0, 16
    ecall
    mv   s8, a0
    li   t0, 0x600dcafe
    sw   t0, 0(s8)
    mv   a0, s7                 # the fault: all of the key is copied
    mv   a1, s2
    mv   a2, s3
    call copy
    lw   t0, 0(s8)
    li   t1, 0x600dcafe
    beq  t0, t1, find_key
    li   a0, 6
    li   a7, 6                  # assertion failed
    ecall

find_key:
    la   s9, table
    mv   s10, s11
look_at_pair:
    beqz s10, key_is_new
    lw   t0, 0(s9)
    bne  t0, s3, next_pair
    addi t0, s9, 8
    mv   t1, s2
    add  t2, s2, s3
compare_byte:
    lbu  t3, 0(t0)
    lbu  t4, 0(t1)
    bne  t3, t4, next_pair
    addi t0, t0, 1
    addi t1, t1, 1
    bne  t1, t2, compare_byte
    j    key_is_known
next_pair:
    addi s9, s9, 140
    addi s10, s10, -1
    j    look_at_pair

key_is_new:
    beqz s6, no_value
    li   t0, 128
    beq  s11, t0, table_is_full
    sw   s3, 0(s9)              # s9 is behind the last pair
    addi a0, s9, 8
    mv   a1, s2
    mv   a2, s3
    call copy
    addi s11, s11, 1
    j    put_value
key_is_known:
    beqz s6, give_value
put_value:
    sw   s5, 4(s9)
    addi a0, s9, 72
    mv   a1, s4
    mv   a2, s5                 # the line feed stands behind the value
    call copy
    la   s4, ok_line
    li   s5, 3
    j    free_blocks
give_value:
    lw   s5, 4(s9)
    addi s4, s9, 72
    j    free_blocks
no_value:
    la   s4, none_line
    li   s5, 5
    j    free_blocks
table_is_full:
    la   s4, full_line
    li   s5, 5

free_blocks:
    mv   a0, s8
    li   a7, 4                  # free
    ecall
    mv   a0, s7
    ecall
reply:
    mv   a0, s0
    mv   a1, s4
    mv   a2, s5
    li   a7, 2                  # send
    ecall
    j    receive

bad_line:
    la   s4, bad_reply
    li   s5, 4
    j    reply

# How many bytes there are from a0 to the first space or line feed, or to the message's
# end. Gives it in a0.
measure:
    mv   t0, a0
    li   t1, 32                 # a space
    li   t2, 10                 # a line feed
measure_byte:
    beq  t0, s1, measured
    lbu  t3, 0(t0)
    beq  t3, t1, measured
    beq  t3, t2, measured
    addi t0, t0, 1
    j    measure_byte
measured:
    sub  a0, t0, a0
    ret

# Copies a2 bytes from a1 to a0.
copy:
    beqz a2, copied
    lbu  t0, 0(a1)
    sb   t0, 0(a0)
    addi a1, a1, 1
    addi a0, a0, 1
    addi a2, a2, -1
    j    copy
copied:
    ret

.data
buffer:
    .space 4096
table:
    .space 17920                # 128 pairs
ok_line:
    .ascii "ok\n"
none_line:
    .ascii "none\n"
full_line:
    .ascii "full\n"
bad_reply:
    .ascii "bad\n"
"#;
