//! What the commands read, and what they have to write.

/// A handshake, three bytes each way, and an orderly close (RFC 9293, 3.5 and 3.6).
pub(crate) const CONNECTION: &str = "\
listen B
connect A
emit A
deliver A 0
emit B
deliver B 0
emit A
deliver A 1
send A 616263
send B 646566
emit A
deliver A 2
emit B
deliver B 1
receive B 10
receive A 10
emit A
deliver A 3
close A
emit A
deliver A 4
emit B
deliver B 2
receive B 10
close B
emit B
deliver B 3
emit A
deliver A 5
timer A timewait
";

/// What is written for it.
pub(crate) const REPORT: &str = "\
1 listen B ok LISTEN
2 connect A ok SYN-SENT
3 emit A 0 flags SYN seq 1000 ack 0 window 65535 text 0 sack -
4 deliver A 0 processed SYN-RECEIVED
5 emit B 0 flags ACK,SYN seq 5000 ack 1001 window 65535 text 0 sack -
6 deliver B 0 processed ESTABLISHED
7 emit A 1 flags ACK seq 1001 ack 5001 window 65535 text 0 sack -
8 deliver A 1 processed ESTABLISHED
9 send A took 3
10 send B took 3
11 emit A 2 flags ACK,PSH seq 1001 ack 5001 window 65535 text 3 sack -
12 deliver A 2 processed ESTABLISHED
13 emit B 1 flags ACK,PSH seq 5001 ack 1004 window 65533 text 3 sack -
14 deliver B 1 processed ESTABLISHED
15 receive B 10 bytes 616263
16 receive A 10 bytes 646566
17 emit A 3 flags ACK seq 1004 ack 5004 window 65535 text 0 sack -
18 deliver A 3 processed ESTABLISHED
19 close A ok FIN-WAIT-1
20 emit A 4 flags ACK,FIN seq 1004 ack 5004 window 65535 text 0 sack -
21 deliver A 4 processed CLOSE-WAIT
22 emit B 2 flags ACK seq 5004 ack 1005 window 65535 text 0 sack -
23 deliver B 2 processed FIN-WAIT-2
24 receive B 10 end
25 close B ok LAST-ACK
26 emit B 3 flags ACK,FIN seq 5004 ack 1005 window 65535 text 0 sack -
27 deliver B 3 processed TIME-WAIT
28 emit A 5 flags ACK seq 1005 ack 5005 window 65535 text 0 sack -
29 deliver A 5 processed CLOSED
30 timer A timewait yes
end A CLOSED orderly accepted 3 delivered 3 released 3 ordered 3 sent 6 ended no
end B CLOSED orderly accepted 3 delivered 3 released 3 ordered 3 sent 4 ended yes
";

/// Eight segments.
pub(crate) const SEGMENTS: &str = "\
# The smallest SYN
10.0.0.1 10.0.0.2 000100020000000000000000500210008bdd0000
# A checksum of ffff
10.0.0.1 10.0.0.2 00010002000000000000000050029bddffff0000
# One byte changed
10.0.0.1 10.0.0.2 000100020000000000000000400210008bdd0000
# 19 bytes
10.0.0.1 10.0.0.2 00000000000000000000000000000000000000
# A data offset of 4
10.0.0.1 10.0.0.2 000100020000000000000000400210009bdd0000
# Padding that isn't zeros
10.0.0.1 10.0.0.2 00010002000000000000000070021000641c0000020405b400000001
# An odd last byte
10.0.0.1 10.0.0.2 000100020000000100000001501010004acc000041
# Four blocks
10.0.0.1 10.0.0.2 000100020000000100000001e0101000f345000001010522\
0000001000000020000000300000004000000050000000600000007000000080
";

/// What is written for them.
pub(crate) const LISTING: &str = "\
2 1 > 2 seq 0 ack 0 reserved 0 flags SYN window 4096 urgent 0 options - pad 0 text -
4 1 > 2 seq 0 ack 0 reserved 0 flags SYN window 39901 urgent 0 options - pad 0 text -
6 malformed 3 BadChecksum
8 malformed 1 TooShort
10 malformed 4 BadOffset
12 malformed 6 BadPadding at 27
14 1 > 2 seq 1 ack 1 reserved 0 flags ACK window 4096 urgent 0 options - pad 0 text 41
16 1 > 2 seq 1 ack 1 reserved 0 flags ACK window 4096 urgent 0 options \
nop,nop,sack:16-32+48-64+80-96+112-128 pad 0 text -
total 8 malformed 4
";

/// A segment of one byte, and a line of no form.
pub(crate) const BAD_LIST: &str = "10.0.0.1 10.0.0.2 00\nbad\n";

/// What is written before the bad line is met.
pub(crate) const BEFORE_BAD_LINE: &str = "1 malformed 1 TooShort\n";
