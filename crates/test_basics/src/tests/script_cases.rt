//! Scripts, whose lines are separated by `/`.

/// Scripts that are refused, after the line and the cause that are reported.
pub const REFUSED: &str = "\
1 UnknownCommand frob
1 UnknownCommand Commit
1 UnknownCommand frob now
1 UnknownCommand commit#
3 UnknownCommand /# a comment/frob
2 UnknownCommand commit/-/frob
1 UnknownCommand node x frob
1 UnknownCommand node X Source 1
1 Words node
1 Words node x
1 Words commit now
1 Words commit #
1 Words undo 1
1 Words redo 1
1 Words endwatch w
1 Words buffer a Y8 0 0 1
1 Words buffer a Y8 0 0 1 1 1
1 Words sub s a 0 0 1
1 Words sub s a 0 0 1 1 1
1 Words dup b
1 Words dup b a a
1 Words load a 0 0 1 1
1 Words load a 0 0 1 1 f f
1 Words fill a 0 0 1 1
1 Words fill a 0 0 1 1 1 2 3 4 5
1 Words copy a b 0 0 1 1 0
1 Words copy a b 0 0 1 1 0 0 0
1 Words drop
1 Words drop n n
1 Words render n 0 0 0 1 1
1 Words render n 0 0 0 1 1 o o
1 Words grab b 0 NONE 0 0 1 1
1 Words grab b 0 NONE 0 0 1 1 o o
1 Words watch n 0 0 1 1 1 1
1 Words watch n 0 0 1 1 1 1 w w
1 Words node s source
1 Words node s source a b
1 Words node n color Y8 0 0 1 1
1 Words node n color Y8 0 0 1 1 1 2 3 4 5
1 Words node n color Y8 0 0 1 1 1 2 3 4 through m
1 Words node n checker Y8 0 0 1 1 1 0
1 Words node n checker Y8 0 0 1 1 1 0 9 a
1 Words node n convert Y8
1 Words node n convert Y8 a b
1 Words node n invert
1 Words node n invert a b
1 Words node n threshold 1
1 Words node n threshold 1 a b
1 Words node n gain 1 2
1 Words node n gain 1 2 a b
1 Words node n translate 0 0
1 Words node n translate 0 0 a b
1 Words node n crop 0 0 1 1
1 Words node n crop 0 0 1 1 a b
1 Words node n flip h
1 Words node n flip h a b
1 Words node n box 1 NONE
1 Words node n box 1 NONE a b
1 Words node n dilate 1 NONE
1 Words node n dilate 1 NONE a b
1 Words node n erode 1 NONE
1 Words node n erode 1 NONE a b
1 Words node n add a
1 Words node n add a b c
1 Words node n over a
1 Words node n over a b c
1 Words node n mask a
1 Words node n mask a b c
1 Words buffer A Z8 x 0 1
1 Number buffer A Y8 x 0 1 1
1 Number buffer a Y8 -2147483649 0 1 1
1 Number buffer a Y8 2147483648 0 1 1
1 Number buffer a Y8 0 -2147483649 1 1
1 Number buffer a Y8 0 0 2147483648 1
1 Number buffer a Y8 0 0 1 2147483648
1 Number buffer a Y8 00000000000 0 1 1
1 Number buffer a Y8 +1 0 1 1
1 Number buffer a Y8 --1 0 1 1
1 Number buffer a Y8 - 0 1 1
1 Number buffer a Y8 1- 0 1 1
1 Number buffer a Y8 0x1 0 1 1
1 Number sub s a 0 0 1 one
1 Number load A 0 0 1 1. f
1 Number fill a 0 0 1 1 4294967296
1 Number fill a 0 0 1 1 9999999999
1 Number fill a 0 0 1 1 1 2 3 4294967296
1 Number fill a 0 0 1 1 -0
1 Number copy a b 0 0 1 1 33554433 0
1 Number copy a b 0 0 1 1 0 33554433
1 Number copy a b 0 0 1 1 -33554433 0
1 Number copy a b 0 0 1 1 0 -33554433
1 Number render n 9 0 0 1 1 o
1 Number render n -0 0 0 1 1 o
1 Number grab b 9 none 0 0 1 1 o
1 Number watch n 0 0 1 1 0 1 w
1 Number watch n 0 0 1 1 17 1 w
1 Number watch n 0 0 1 1 1 0 w
1 Number watch n 0 0 1 1 1 65 w
1 Number node n color Y8 0 0 1 1 5 through m
1 Number node n color Y8 0 0 1 1 4294967296
1 Number node n checker Y8 0 0 1 1 0 0 9
1 Number node n checker Y8 0 0 1 1 4097 0 9
1 Number node n checker Y8 0 0 1 1 1 4294967296 9
1 Number node n checker Y8 0 0 1 1 1 0 4294967296
1 Number node n threshold 4294967296 a
1 Number node n threshold -1 a
1 Number node n gain 65536 1 a
1 Number node n gain 1 0 a
1 Number node n gain 1 65536 a
1 Number node n translate 33554433 0 a
1 Number node n translate 0 -33554433 a
1 Number node N crop 0 0 1 a a
1 Number node n box 0 NONE a
1 Number node n box 65 NONE a
1 Number node n dilate 0 NONE a
1 Number node n dilate 65 NONE a
1 Number node n erode 0 NONE a
1 Number node n erode 65 NONE a
1 Name buffer A Y8 0 0 1 1
1 Name buffer A Y8 0 0 -1 1
1 Name buffer 1a Y8 0 0 1 1
1 Name buffer _a Y8 0 0 1 1
1 Name buffer a-b Y8 0 0 1 1
1 Name buffer abcdefghijklmnopq Y8 0 0 1 1
1 Name buffer a y8 0 0 1 1
1 Name buffer a Y64 0 0 1 1
1 Name buffer a y32 0 0 1 1
1 Name buffer a RGB 0 0 1 1
1 Name sub S a 0 0 1 1
1 Name sub s A 0 0 1 1
1 Name dup B a
1 Name dup b A
1 Name load A 0 0 1 1 f
1 Name load a 0 0 1 1 .f
1 Name load a 0 0 1 1 -f
1 Name load a 0 0 1 1 f:g
1 Name load a 0 0 1 1 abcdefghijklmnopqrstuvwxyzabcdefghijklmnopqrstuvwxyzabcdefghijklm
1 Name fill A 0 0 1 1 0
1 Name copy A b 0 0 1 1 0 0
1 Name copy a B 0 0 1 1 0 0
1 Name drop N
1 Name render N 0 0 0 1 1 o
1 Name render n 0 0 0 1 1 .
1 Name grab B 0 NONE 0 0 1 1 o
1 Name grab b 0 none 0 0 1 1 o
1 Name watch N 0 0 1 1 1 1 w
1 Name watch n 0 0 1 1 1 1 abcdefghijklmnopqrstuvwxyzabcdefghijklmnopqrstuvwxyzabcdefg
1 Name node N source a
1 Name node n source A
1 Name node n color Y9 0 0 1 1 5
1 Name node n checker y8 0 0 1 1 1 0 9
1 Name node n convert Z8 a
1 Name node n invert A
1 Name node n flip x a
1 Name node n flip H a
1 Name node n box 1 LOOP a
1 Name node n dilate 1 LOOP a
1 Name node n erode 1 LOOP a
1 Name node n add a B
1 Name node n mask A b
1 Rect buffer a Y8 0 0 -1 1
1 Rect buffer a Y8 0 0 40000 1
1 Rect buffer a Y8 -2147483648 0 1 1
1 Rect buffer a Y8 2147483647 0 1 1
1 Rect buffer a Y8 0 2147483647 1 1
1 Rect buffer a Y8 0 0 2147483647 1
1 Rect buffer a Y8 0 0 1 -2147483648
1 Rect buffer a Y8 -16777217 0 0 0
1 Rect buffer a Y8 16777216 0 1 1
1 Rect buffer a Y8 0 0 32769 1
1 Rect buffer a Y8 0 0 32768 1025
1 Rect sub s a 0 0 1 -1
1 Rect load a 0 0 32769 1 f
1 Rect fill a 16777217 0 0 0 1
1 Rect copy a b 0 0 -1 1 0 0
1 Rect render n 8 0 0 129 1 o
1 Rect render n 8 0 0 128 5 o
1 Rect render n 1 8388608 0 1 1 o
1 Rect grab b 0 LOOP 0 0 1 -1 o
1 Rect grab b 8 LOOP 0 0 129 1 o
1 Rect watch n 0 0 1024 513 16 3 w
1 Rect node n color Y8 0 0 32769 1 5
1 Rect node n checker Y8 0 0 1 -1 1 0 9
1 Rect node n crop 0 0 -1 1 a
1 Order endwatch
3 Order commit/ /endwatch
1 Order watch n 0 0 1 1 1 1 w
2 Order commit/watch n 0 0 1 1 1 1 w/commit
2 Order watch n 0 0 1 1 1 1 w/watch m 0 0 1 1 1 1 v/endwatch
3 Order watch n 0 0 1 1 1 1 w/endwatch/endwatch
2 Rect watch n 0 0 1 1 1 1 w/watch m 0 0 -1 1 1 1 v
3 UnknownCommand watch n 0 0 1 1 1 1 w/commit/frob
2 Words watch n 0 0 1 1 1 1 w/endwatch now";

/// Scripts, each after the text that it is printed as.
pub const PRINTED: &str = "\
=
=//
=# a comment
=\t # frob/ \t
commit/=commit
//commit//undo/=/#/commit/ # x/ \tundo
buffer a Y8 0 7 1 1/=  buffer\ta \t Y8 -0 007 0000000001 1\t
buffer abcdefghijklmnop RGBA16 -16777216 16777215 1 1/=buffer abcdefghijklmnop RGBA16 -16777216 16777215 1 1
buffer a YA8 0 0 0 0/=buffer a YA8 16777216 -16777216 0 9
buffer a RGB8 0 0 32768 1024/=buffer a RGB8 0 0 32768 1024
buffer a_0 YA16 0 0 1024 32768/=buffer a_0 YA16 0 0 1024 32768
buffer a Y32 0 0 1 1/=buffer a Y32 0 0 1 1
buffer a YA32 0 0 1 1/=buffer a YA32 0 0 1 1
buffer a RGB32 0 0 1 1/=buffer a RGB32 0 0 1 1
buffer a RGBA32 0 0 1 1/=buffer a RGBA32 0 0 1 1
sub s a -1 -2 3 4/=sub s a -1 -2 3 4
dup b a/=dup b a
load a 0 0 1 1 in-1_A.RAW/=load a 0 0 1 1 in-1_A.RAW
load a 0 0 1 1 abcdefghijklmnopqrstuvwxyzabcdefghijklmnopqrstuvwxyzabcdefghijkl/=load a 0 0 1 1 abcdefghijklmnopqrstuvwxyzabcdefghijklmnopqrstuvwxyzabcdefghijkl
fill a 0 0 1 1 65535/=fill a 0 0 1 1 65535
fill a 0 0 1 1 0 1 2 65535/=fill a 0 0 1 1 0000000000 1 2 65535
fill a 0 0 1 1 65536 4294967295/=fill a 0 0 1 1 65536 4294967295
copy a b 0 0 1 1 -33554432 33554432/=copy a b 0 0 1 1 -33554432 33554432
copy a b 0 0 1 1 33554432 -33554432/=copy a b 0 0 1 1 33554432 -33554432
drop n/=drop n
undo/redo/=undo/redo
render n 8 0 0 128 4 o/=render n 8 0 0 128 4 o
render n 0 0 0 32768 1024 o/=render n 0 0 0 32768 1024 o
render n 1 -8388608 8388607 1 1 o/=render n 1 -8388608 8388607 1 1 o
grab b 0 LOOP 0 0 1 1 o/=grab b 0 LOOP 0 0 1 1 o
grab b 8 WHITE 0 0 1 1 o/=grab b 8 WHITE 0 0 1 1 o
watch n 0 0 1024 512 16 3 w/endwatch/=watch n 0 0 1024 512 16 3 w/endwatch
watch n 0 0 1 1 16 64 w/endwatch/=watch n 0 0 1 1 16 64 w/endwatch
watch n 0 0 1 1 1 1 abcdefghijklmnopqrstuvwxyzabcdefghijklmnopqrstuvwxyzabcdef/endwatch/=watch n 0 0 1 1 1 1 abcdefghijklmnopqrstuvwxyzabcdefghijklmnopqrstuvwxyzabcdef/endwatch
watch n 0 0 1 1 1 1 w/commit//endwatch/watch n 0 0 1 1 1 1 w/endwatch/=watch n 0 0 1 1 1 1 w/commit//endwatch/watch n 0 0 1 1 1 1 w/endwatch/
node s source a/=node s source a
node n color Y8 0 0 1 1 65535/=node n color Y8 0 0 1 1 65535
node n color RGBA8 -1 -2 3 4 100 0 0 128/=node n color RGBA8 -1 -2 3 4 100 0 0 128
node n checker Y16 0 0 1 1 4096 65535 0/=node n checker Y16 0 0 1 1 4096 65535 0
node n checker Y8 0 0 1 1 1 0 65535/=node n checker Y8 0 0 1 1 1 0 65535
node n color YA32 0 0 1 1 4294967295 65536/=node n color YA32 0 0 1 1 4294967295 65536
node n checker Y32 0 0 1 1 1 65536 4294967295/=node n checker Y32 0 0 1 1 1 65536 4294967295
node n convert RGBA32 a/=node n convert RGBA32 a
node n convert RGB16 a/=node n convert RGB16 a
node n invert n/=node n invert n
node n threshold 65535 a/=node n threshold 65535 a
node n threshold 4294967295 a/=node n threshold 4294967295 a
node n gain 65535 1 a/=node n gain 65535 1 a
node n gain 0 65535 a/=node n gain 0 65535 a
node n translate -33554432 33554432 a/=node n translate -33554432 33554432 a
node n crop 16 16 992 736 p/=node n crop 16 16 992 736 p
node n flip h a/=node n flip h a
node n flip v a/=node n flip v a
node n box 1 NONE a/=node n box 1 NONE a
node n dilate 64 CLAMP a/=node n dilate 64 CLAMP a
node n erode 1 BLACK a/=node n erode 1 BLACK a
node n box 64 WHITE a/=node n box 64 WHITE a
node n add a b/=node n add a b
node n over a a/=node n over a a
node n mask a b/=node n mask a b";

/// The first worked run.
pub const FIRST_RUN: &str = "\
buffer a Y8 0 0 2 2
load a 0 0 2 2 in.raw
node s source a
node i invert s
commit
render i 0 0 0 2 2 out.raw
";
