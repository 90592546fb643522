//! Texts that are rejected, each with the offset of the error and what the error shows. The examples of `docs/GRAMMAR.md` are
//! among them, which `tools/grammar-examples` checks.

/// The cases.
pub const REFUSED: &str = "
=== lhs 6 undefined name
infer %x
---
unknown:1:6: no value named '%x' in scope
     |
   1 | infer %x
     |      ^
=== lhs 16 undefined name after a carriage return and a newline
%x = var\u{d}
infer %y
---
unknown:2:6: no value named '%y' in scope
     |
   2 | infer %y
     |      ^
=== lhs 24 name of the item before
%x = var
infer %x
infer %x
---
unknown:3:6: no value named '%x' in scope
     |
   3 | infer %x
     |      ^
=== lhs 9 undefined operand
%x = add %y, 1
---
unknown:1:9: unknown value '%y'
     |
   1 | %x = add %y, 1
     |         ^
=== lhs 9 operand of its own definition
%0 = add %0, 1
infer %0

---
unknown:1:9: unknown value '%0'
     |
   1 | %0 = add %0, 1
     |         ^
=== lhs 18 phi of a variable
%x = var
%p = phi %x
---
unknown:2:9: unknown block '%x'
     |
   2 | %p = phi %x
     |         ^
=== lhs 9 name defined twice
%x = var
%x = var
infer %x
---
unknown:1:9: cannot redefine '%x'
     |
   1 | %x = var
     |         ^
=== lhs 9 name defined twice in one line
%x = var %x = var
---
unknown:1:9: cannot redefine '%x'
     |
   1 | %x = var %x = var
     |         ^
=== lhs 9 number defined twice
%1 = var
%1 = add %1, 1
infer %1

---
unknown:1:9: cannot redefine '%1'
     |
   1 | %1 = var
     |         ^
=== rep 9 number defined twice in a replacement
%1 = var
%1 = add %1, 1
infer %1
result 1

---
unknown:1:9: cannot redefine '%1'
     |
   1 | %1 = var
     |         ^
=== lhs 0 word in place of a left-hand side
x
---
unknown:1:1: expected 'infer'
     |
   1 | x
     | ^
=== lhs 0 longer word in place of a left-hand side
foo
---
unknown:1:1: expected 'infer'
     |
   1 | foo
     | ^
=== lhs 0 instruction in place of a left-hand side
hole 1
---
unknown:1:1: expected 'infer'
     |
   1 | hole 1
     | ^
=== lhs 0 numbers in place of a left-hand side
1 2 3
---
unknown:1:1: expected 'infer'
     |
   1 | 1 2 3
     | ^
=== lhs 0 constant in place of a left-hand side
1:i8 2 3 4
---
unknown:1:1: expected 'infer'
     |
   1 | 1:i8 2 3 4
     | ^
=== lhs 0 attributes in place of a left-hand side
(negative)(nonZero) var
---
unknown:1:1: expected 'infer'
     |
   1 | (negative)(nonZero) var
     | ^
=== rhs 0 word in place of a right-hand side
x
---
unknown:1:1: expected 'result'
     |
   1 | x
     | ^
=== rep 0 word in place of a replacement
x
---
unknown:1:1: expected 'cand'
     |
   1 | x
     | ^
=== lhs 18 word after an item
%x = var
infer %x
x
---
unknown:2:9: expected 'infer'
     |
   2 | infer %x
     |         ^
=== rep 18 second infer line of a replacement
%x = var
infer %x
infer %x
---
unknown:2:9: expected 'result'
     |
   2 | infer %x
     |         ^
=== lhs 6 number after infer
infer 5
---
unknown:1:6: expected a value name
     |
   1 | infer 5
     |      ^
=== lhs 3 definition without its sign
%x var
---
unknown:1:3: expected '='
     |
   1 | %x var
     |   ^
=== lhs 5 unknown instruction
%x = foo
---
unknown:1:5: expected a constant, var, block, phi, or instruction
     |
   1 | %x = foo
     |     ^
=== lhs 5 infer line in place of a right side
%x = infer %x
---
unknown:1:5: expected a constant, var, block, phi, or instruction
     |
   1 | %x = infer %x
     |     ^
=== lhs 11 operands without a comma
%x = add 1 2
---
unknown:1:11: expected ','
     |
   1 | %x = add 1 2
     |           ^
=== rhs 7 comma in place of an operand
result ,
---
unknown:1:7: expected an integer literal
     |
   1 | result ,
     |       ^
=== lhs 5 number in place of a type
%x : 8 = var
---
unknown:1:5: expected a type (like 'i32', 'i8', or 'i1')
     |
   1 | %x : 8 = var
     |     ^
=== lhs 3 width below the range
%x:i0 = var
infer %x
---
unknown:1:3: expected a type (like 'i32', 'i8', or 'i1')
     |
   1 | %x:i0 = var
     |   ^
=== lhs 3 width above the range
%x:i65536 = var
infer %x
---
unknown:1:3: expected a type (like 'i32', 'i8', or 'i1')
     |
   1 | %x:i65536 = var
     |   ^
=== rep 7 second comma of a pair
cand 1,,2
---
unknown:1:7: expected an integer literal
     |
   1 | cand 1,,2
     |       ^
=== rep 5 comma before a pair
cand , 1 2
---
unknown:1:5: expected an integer literal
     |
   1 | cand , 1 2
     |     ^
=== rep 8 comma after a pair
cand 1 2,
---
unknown:1:8: expected 'cand'
     |
   1 | cand 1 2,
     |        ^
=== rep 6 pair that ends after its comma
cand 1,
---
unknown:1:6: unexpected EOF
     |
   1 | cand 1,
     |      ^
=== rep 4 comma in a path condition
pc 1, 2
cand 1 2
---
unknown:1:4: expected an integer literal
     |
   1 | pc 1, 2
     |    ^
=== lhs 3 end in place of a right side
%x =
---
unknown:1:3: expected a constant, var, block, phi, or instruction
     |
   1 | %x =
     |   ^
=== lhs 6 end in place of a right side after a type
%x:i8 =
---
unknown:1:6: expected a constant, var, block, phi, or instruction
     |
   1 | %x:i8 =
     |      ^
=== lhs 1 end after a name
%x
---
unknown:1:1: unexpected EOF
     |
   1 | %x
     | ^
=== lhs 8 end in place of an item's last line
%x = var

---
unknown:1:8: unexpected EOF
     |
   1 | %x = var
     |        ^
=== rep 7 end in place of a replacement's last lines
%x = var
---
unknown:1:7: unexpected EOF
     |
   1 | %x = var
     |       ^
=== lhs 15 end after newlines
%x = var
infer


---
unknown:2:6: unexpected EOF
     |
   2 | infer
     |      ^
=== lhs 8 end after a carriage return
%x = var\u{d}
---
unknown:1:8: unexpected EOF
     |
   1 | %x = var\u{d}
     |        ^
=== lhs 0 character of two bytes
é
---
unknown:1:1: unexpected 'é'
     |
   1 | é
     | ^
=== lhs 0 byte order mark
\u{feff}
---
unknown:1:1: unexpected '\u{feff}'
     |
   1 | \u{feff}
     | ^
=== lhs 0 zero-width space
\u{200b}
---
unknown:1:1: unexpected '\u{200b}'
     |
   1 | \u{200b}
     | ^
=== lhs 7 character after a wide space
%x =\u{3000}é
---
unknown:1:7: unexpected 'é'
     |
   1 | %x =\u{3000}é
     |       ^
=== lhs 9 character after a definition
%x = var é
---
unknown:1:9: unexpected 'é'
     |
   1 | %x = var é
     |         ^
=== lhs 9 closing bracket
%x = var ]
---
unknown:1:9: unexpected ']'
     |
   1 | %x = var ]
     |         ^
=== lhs 0 sign without a name
%é = var
---
unknown:1:1: expected value name
     |
   1 | %é = var
     | ^
=== lhs 0 sign alone
%
---
unknown:1:1: expected value name
     |
   1 | %
     | ^
=== lhs 15 sign at the end
%x = var
infer %
---
unknown:2:6: expected value name
     |
   2 | infer %
     |      ^
=== lhs 14 space after knownBits
%x = knownBits =01
---
unknown:1:14: expected '=', found ' '
     |
   1 | %x = knownBits =01
     |              ^
=== lhs 14 wide space after knownBits
%x = knownBits\u{3000}=01
---
unknown:1:14: expected '=', found '\u{3000}'
     |
   1 | %x = knownBits\u{3000}=01
     |              ^
=== lhs 19 space after knownBits in an attribute
%x = var (knownBits =01)
infer %x
---
unknown:1:19: expected '=', found ' '
     |
   1 | %x = var (knownBits =01)
     |                   ^
=== lhs 8 knownBits alone
knownBits
---
unknown:1:8: unexpected EOF
     |
   1 | knownBits
     |        ^
=== lhs 13 end after knownBits
%x = knownBits
---
unknown:1:13: unexpected EOF
     |
   1 | %x = knownBits
     |             ^
=== lhs 18 end after knownBits in an attribute
%x = var (knownBits
---
unknown:1:18: unexpected EOF
     |
   1 | %x = var (knownBits
     |                  ^
=== lhs 10 no bit
knownBits=2
---
unknown:1:10: expected [0|1|x]+ bit pattern for knownBits
     |
   1 | knownBits=2
     |          ^
=== lhs 20 no bit in an attribute
%x = var (knownBits=2)
infer %x
---
unknown:1:20: expected [0|1|x]+ bit pattern for knownBits
     |
   1 | %x = var (knownBits=2)
     |                    ^
=== lhs 10 end in place of a bit: the offset is the length
knownBits=
---
unknown:1:10: expected [0|1|x]+ bit pattern for knownBits
     |
   1 | knownBits=
     |          ^
=== lhs 20 end in place of a bit in the second line
%x = var
(knownBits=
---
unknown:2:11: expected [0|1|x]+ bit pattern for knownBits
     |
   2 | (knownBits=
     |           ^
=== lhs 20 parenthesis in place of a bit
%x = var (knownBits=)
infer %x

---
unknown:1:20: expected [0|1|x]+ bit pattern for knownBits
     |
   1 | %x = var (knownBits=)
     |                    ^
=== lhs 0 known bits in place of an item
knownBits=x
---
unknown:1:1: expected 'infer'
     |
   1 | knownBits=x
     | ^
=== lhs 10 word that begins with knownBits
%x = var (knownBitsX)
infer %x
---
unknown:1:10: unknown attribute 'knownBitsX'
     |
   1 | %x = var (knownBitsX)
     |          ^
=== lhs 9 end in an attribute
%x = var (
---
unknown:1:9: unexpected EOF
     |
   1 | %x = var (
     |         ^
=== lhs 10 unknown attribute
%x = var (foo)
---
unknown:1:10: unknown attribute 'foo'
     |
   1 | %x = var (foo)
     |          ^
=== lhs 10 number in place of an attribute
%x = var (1)
---
unknown:1:10: expected an attribute identifier
     |
   1 | %x = var (1)
     |          ^
=== lhs 16 range without its bracket
%x = var (range=(
---
unknown:1:16: expected '['
     |
   1 | %x = var (range=(
     |                ^
=== lhs 16 range without its bracket before another line
%x = var (range=(
infer %x
---
unknown:1:16: expected '['
     |
   1 | %x = var (range=(
     |                ^
=== lhs 19 second word of an attribute
%x = var (negative x)
---
unknown:1:19: expected ')'
     |
   1 | %x = var (negative x)
     |                   ^
=== lhs 19 unknown root attribute
%x = var
infer %x (foo)
---
unknown:2:10: expected 'demandedBits' or 'harvestedFromUse'
     |
   2 | infer %x (foo)
     |          ^
=== lhs 32 digit among demanded bits
%x = var
infer %x (demandedBits=012)
---
unknown:2:23: expected [0|1]+ bit pattern
     |
   2 | infer %x (demandedBits=012)
     |                       ^
=== lhs 30 phi with too few values
%bb = block 2
%p = phi %bb, 1
infer %p
---
unknown:2:16: expected ','
     |
   2 | %p = phi %bb, 1
     |                ^
=== lhs 25 phi without values
%b = block 2
%p = phi %b
infer %p

---
unknown:2:12: expected ','
     |
   2 | %p = phi %b
     |            ^
=== lhs 37 phi of the largest block
%b = block 4294967295
%p = phi %b, 1
infer %p
---
unknown:2:15: expected ','
     |
   2 | %p = phi %b, 1
     |               ^
=== lhs 35 predecessor out of range
%bb = block 2
%x = var
blockpc %bb 2 %x 1
infer %x
---
unknown:3:12: predecessor 2 out of range for block '%bb'
     |
   3 | blockpc %bb 2 %x 1
     |            ^
=== lhs 38 predecessor out of range after a type
%x:i8 = var
%bb = block 2
blockpc %bb 2 %x 1
infer %x

---
unknown:3:12: predecessor 2 out of range for block '%bb'
     |
   3 | blockpc %bb 2 %x 1
     |            ^
=== lhs 26 predecessor of a block that has none
%bb = block 0
blockpc %bb 0 1 1
infer %bb
---
unknown:2:12: predecessor 0 out of range for block '%bb'
     |
   2 | blockpc %bb 0 1 1
     |            ^
=== lhs 26 predecessor before the first operand
%bb = block 1
blockpc %bb 1 %u 1
infer %bb
---
unknown:2:12: predecessor 1 out of range for block '%bb'
     |
   2 | blockpc %bb 1 %u 1
     |            ^
=== lhs 26 predecessor before the second operand
%bb = block 1
blockpc %bb 1 1 %u
infer %bb
---
unknown:2:12: predecessor 1 out of range for block '%bb'
     |
   2 | blockpc %bb 1 1 %u
     |            ^
=== lhs 26 predecessor before the end
%bb = block 1
blockpc %bb 1
---
unknown:2:12: predecessor 1 out of range for block '%bb'
     |
   2 | blockpc %bb 1
     |            ^
=== lhs 28 operand after a predecessor in range
%bb = block 1
blockpc %bb 0 %u 1
infer %bb
---
unknown:2:14: unknown value '%u'
     |
   2 | blockpc %bb 0 %u 1
     |              ^
=== lhs 17 block before the predecessor
%x = var
blockpc %x 1 %u 1
infer %x
---
unknown:2:8: unknown block '%x'
     |
   2 | blockpc %x 1 %u 1
     |        ^
=== rhs 7 constant above the range
result 170141183460469231731687303715884105728
---
unknown:1:7: number too large to fit in target type
     |
   1 | result 170141183460469231731687303715884105728
     |       ^
=== rhs 7 sign without a digit
result -
---
unknown:1:7: invalid digit found in string
     |
   1 | result -
     |       ^
=== lhs 11 number of predecessors above the range
%b = block 4294967296
infer %b
---
unknown:1:11: number too large to fit in target type
     |
   1 | %b = block 4294967296
     |           ^
=== lhs 11 number of predecessors below the range
%b = block -1
---
unknown:1:11: number too small to fit in target type
     |
   1 | %b = block -1
     |           ^
=== lhs 11 number of predecessors below the range before another line
%b = block -1
infer %b
---
unknown:1:11: number too small to fit in target type
     |
   1 | %b = block -1
     |           ^
=== lhs 24 predecessor above the range of its type
%b = block 1
blockpc %b 4294967296 %u 1
infer %b
---
unknown:2:11: number too large to fit in target type
     |
   2 | blockpc %b 4294967296 %u 1
     |           ^
=== lhs 19 sign bits above the range
%x = var (signBits=256)
infer %x
---
unknown:1:19: number too large to fit in target type
     |
   1 | %x = var (signBits=256)
     |                   ^
=== lhs 0 first byte of the text
ab\u{d}
cd
---
unknown:1:1: expected 'infer'
     |
   1 | ab
     | ^
=== lhs 0 first byte of a line with a carriage return
ab\u{d}cd
---
unknown:1:1: expected 'infer'
     |
   1 | ab\u{d}cd
     | ^
=== lhs 1 newline: the last byte of its line

ab
---
unknown:1:1: expected 'infer'
     |
   1 |\u{20}
     | ^
=== lhs 4 newline after a carriage return
%x\u{d}
cd
---
unknown:1:4: expected '='
     |
   1 | %x
     |    ^
=== lhs 5 newline after two carriage returns
%x\u{d}\u{d}
cd
---
unknown:1:5: expected '='
     |
   1 | %x\u{d}
     |     ^
=== lhs 3 carriage return before a newline
%x\u{d}

---
unknown:1:3: unexpected EOF
     |
   1 | %x
     |   ^
=== lhs 4 second carriage return before a newline
%x\u{d}\u{d}

---
unknown:1:4: unexpected EOF
     |
   1 | %x\u{d}
     |    ^
=== lhs 5 line that ends in a carriage return alone
%x\u{d}
=d\u{d}
---
unknown:2:1: expected a constant, var, block, phi, or instruction
     |
   2 | =d\u{d}
     | ^
=== lhs 5 carriage returns without a newline
%x\u{d}=\u{d}d
---
unknown:1:5: expected a constant, var, block, phi, or instruction
     |
   1 | %x\u{d}=\u{d}d
     |     ^
=== lhs 5 column in bytes: the line above has a character of two
;é

x

---
unknown:2:1: expected 'infer'
     |
   2 |\u{20}
     | ^
=== lhs 5 column in bytes: a space of three
%x\u{3000}é
---
unknown:1:5: unexpected 'é'
     |
   1 | %x\u{3000}é
     |     ^
=== lhs 14 column in bytes: spaces of two and three
;é\u{d}
%x\u{85}\u{2028}= é\u{d}

---
unknown:2:9: unexpected 'é'
     |
   2 | %x\u{85}\u{2028}= é
     |         ^
";
