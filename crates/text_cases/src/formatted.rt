//! Texts of items, each with the texts of its items: a newline comes after each.

/// The cases.
pub const FORMATTED: &str = "
=== any no text

---

=== any empty comment
;;
---

=== any space
\u{20}
---

=== any newline


---

=== any white space of ASCII
  \u{9}\u{d}

\u{20}
---

=== any wide space
\u{3000}
---

=== any white space of Unicode
\u{b}\u{c}\u{85}\u{a0}\u{1680}\u{2000}\u{200a}\u{2028}\u{2029}\u{202f}\u{205f}
---

=== any two comments
; one
\u{3000}; é two
---

=== any comment after white space
\u{20}
\u{3000}; é
---

=== lhs canonical text
%x = var
infer %x
---
%x = var
infer %x


=== lhs item in one line
%x = var infer %x
---
%x = var
infer %x


=== lhs no spaces
%x=var infer%x
---
%x = var
infer %x


=== lhs wide spaces
%x\u{3000}=\u{3000}var\u{3000}infer\u{3000}%x\u{3000}
---
%x = var
infer %x


=== lhs comment before an item
;é
%x = var
infer %x
---
%x = var
infer %x


=== lhs comments at the ends of lines
%x = var;c
infer %x;end
---
%x = var
infer %x


=== lhs comments between tokens
%x;a
=;b;c
;
var;%x = var
infer;\u{feff}
%x;

---
%x = var
infer %x


=== lhs carriage returns before newlines
%x = var\u{d}
infer %x\u{d}

---
%x = var
infer %x


=== lhs dot and underscore in a name
%0.aZ_9 = var infer %0.aZ_9
---
%0.aZ_9 = var
infer %0.aZ_9


=== lhs name like the word var
%var = var infer %var
---
%var = var
infer %var


=== lhs name like the word knownBits
%knownBits = var infer %knownBits
---
%knownBits = var
infer %knownBits


=== lhs numbers among names, in two items
%a1 = var
%b1 = block 2
%1 = phi %b1, %a1, 7
%01 = add %a1, %1
infer %01
%a1 = var
%b1 = block 2
%1 = phi %b1, %a1, 7
%01 = add %a1, %1
infer %01
---
%a1 = var
%b1 = block 2
%1 = phi %b1, %a1, 7
%01 = add %a1, %1
infer %01

%a1 = var
%b1 = block 2
%1 = phi %b1, %a1, 7
%01 = add %a1, %1
infer %01


=== lhs numbers above 32 bits as names
%9 = var
%3 = var
%4294967305 = add %9, %3
%4 = sub %4294967305, %9
infer %4
%9 = var
%3 = var
%4294967305 = add %9, %3
%4 = sub %4294967305, %9
infer %4
---
%9 = var
%3 = var
%4294967305 = add %9, %3
%4 = sub %4294967305, %9
infer %4

%9 = var
%3 = var
%4294967305 = add %9, %3
%4 = sub %4294967305, %9
infer %4


=== lhs numbers after other names
%0 = var
%x = add %0, 1
%y. = add %x, %0
%17 = sub %y., %x
%99 = add %17, %y.
infer %99
%0 = var
%x = add %0, 1
%y. = add %x, %0
%17 = sub %y., %x
%99 = add %17, %y.
infer %99
---
%0 = var
%x = add %0, 1
%y. = add %x, %0
%17 = sub %y., %x
%99 = add %17, %y.
infer %99

%0 = var
%x = add %0, 1
%y. = add %x, %0
%17 = sub %y., %x
%99 = add %17, %y.
infer %99


=== lhs unneeded definition
%a = var
%b = var
infer %b
---
%b = var
infer %b


=== lhs two items with one name
%x = var
infer %x
%x = var
infer %x
---
%x = var
infer %x

%x = var
infer %x


=== rep replacement by a constant
%1 = var
infer %1
result 1

---
%1 = var
infer %1
result 1


=== rep two pairs with statements in another order
%x:i32 = var
%2lx = slt 2, %x
pc %2lx 1
%1lx = slt 1, %x
cand %1lx 1
%bb = block 3
%phi1 = phi %bb, 1:i32, 2, 3
%phi2 = phi %bb, 2:i32, 4, 6
%phi1x2 = mul %phi1, 2
cand %phi2 %phi1x2
---
%x:i32 = var
%1lx = slt 1, %x
%2lx = slt 2, %x
pc %2lx 1
cand %1lx 1

%bb = block 3
%phi2 = phi %bb, 2:i32, 4, 6
%phi1 = phi %bb, 1:i32, 2, 3
%phi1x2 = mul %phi1, 2
cand %phi2 %phi1x2


=== lhs operands defined in another order
%b = var
%a = var
%c = add %a, %b
infer %c
---
%a = var
%b = var
%c = add %a, %b
infer %c


=== lhs operands defined in their order
%a = var
%b = var
%c = add %a, %b
infer %c
---
%a = var
%b = var
%c = add %a, %b
infer %c


=== lhs operand of two instructions
%b = var
%a = add %b, 1
%c = add %a, %b
infer %c
---
%b = var
%a = add %b, 1
%c = add %a, %b
infer %c


=== rep statements after the infer line
%x = var
infer %x
%y = var
pc %y 1
result %y
---
%x = var
%y = var
pc %y 1
infer %x
result %y


=== lhs condition on a predecessor
%bb = block 2
%x:i8 = var
blockpc %bb 0 %x 1
infer %x
---
%x:i8 = var
%bb = block 2
blockpc %bb 0 %x 1
infer %x


=== lhs condition on a predecessor, constant first
%bb = block 2
%x:i8 = var
blockpc %bb 0 1 %x
infer %x
---
%x:i8 = var
%bb = block 2
blockpc %bb 0 1 %x
infer %x


=== lhs predecessor -0, constants without a space
%bb = block 1
blockpc %bb -0 1-2
infer %bb
---
%bb = block 1
blockpc %bb 0 1 -2
infer %bb


=== lhs condition on the second predecessor
%bb = block 2
%x = var
blockpc %bb 1 %x 1
infer %x
---
%x = var
%bb = block 2
blockpc %bb 1 %x 1
infer %x


=== lhs condition on the third predecessor
%bb = block 3
%x:i8 = var
blockpc %bb 2 %x 1
infer %x
---
%x:i8 = var
%bb = block 3
blockpc %bb 2 %x 1
infer %x


=== rhs constant
result 1
---
result 1

=== rep two conditions on two variables
%a = var
%b = var
pc %a 1
pc %b 1
cand %a 2
---
%a = var
pc %a 1
%b = var
pc %b 1
cand %a 2


=== rep two conditions in the other order
%a = var
%b = var
pc %b 1
pc %a 1
cand %a 2
---
%a = var
%b = var
pc %b 1
pc %a 1
cand %a 2


=== rhs right-hand side with a condition
%x = var
pc %x 1
result 2
---
%x = var
pc %x 1
result 2

=== rep replacement by a constant with a type
%x = var
infer %x
result 1:i8
---
%x = var
infer %x
result 1:i8


=== rep replacement by another variable
%a = var
%b = var
infer %a
result %b
---
%a = var
infer %a
%b = var
result %b


=== rhs zeros before a number and a width
result 007:i008
---
result 7:i8

=== rhs least constant
result -170141183460469231731687303715884105728
---
result -170141183460469231731687303715884105728

=== rhs negative zero
result -0
---
result 0

=== rhs negative zero of three digits
result -000
---
result 0

=== rhs hundred zeros before a number
result 00000000000000000000000000000000000000000000000000000000000000000000000000000000000000000000000000001:i00000065535
---
result 1:i65535

=== rhs two right-hand sides
result 1
result 2
---
result 1
result 2

=== rep pair of constants without a space
cand 1-2
---
cand 1 -2


=== lhs attributes with bits
%x:i4 = var (knownBits=01x1) (signBits=1)
infer %x (demandedBits=0011) (harvestedFromUse)
---
%x:i4 = var (knownBits=01x1) (signBits=1)
infer %x (demandedBits=0011) (harvestedFromUse)


=== lhs attributes of a block and a phi
%b = block 1 (nonZero)
%p = phi %b, 7 (negative)
infer %p
---
%b = block 1 (nonZero)
%p = phi %b, 7 (negative)
infer %p


=== lhs phi of a block without predecessors
%bb = block 0
%p = phi %bb
infer %p
---
%bb = block 0
%p = phi %bb
infer %p


=== lhs block as an operand
%b = block 1
%a = add %b, 1
infer %a
---
%b = block 1
%a = add %b, 1
infer %a


=== lhs two hundred demanded bits
%x = var
infer %x (demandedBits=11111111111111111111111111111111111111111111111111111111111111111111111111111111111111111111111111111111111111111111111111111111111111111111111111111111111111111111111111111111111111111111111111111111)
---
%x = var
infer %x (demandedBits=11111111111111111111111111111111111111111111111111111111111111111111111111111111111111111111111111111111111111111111111111111111111111111111111111111111111111111111111111111111111111111111111111111111)


=== lhs most sign bits
%x = var (signBits=255)
infer %x
---
%x = var (signBits=255)
infer %x


=== lhs most predecessors
%b = block 4294967295
infer %b
---
%b = block 4294967295
infer %b


=== lhs largest width
%x:i65535 = var
infer %x
---
%x:i65535 = var
infer %x


=== lhs attributes of signs and uses
%x = var (powerOfTwo) (nonNegative) (hasExternalUses) (range=[-1,5))
infer %x
---
%x = var (powerOfTwo) (nonNegative) (hasExternalUses) (range=[-1,5))
infer %x


=== lhs widest range
%x = var (range=[-170141183460469231731687303715884105728,170141183460469231731687303715884105727))
infer %x
---
%x = var (range=[-170141183460469231731687303715884105728,170141183460469231731687303715884105727))
infer %x


=== lhs spaces in an attribute
%x = var\u{3000}( range = [ -1 , 5 ) )
infer %x
---
%x = var (range=[-1,5))
infer %x


=== rep two pairs with commas

;; 1
%0 = var
%1 = add %0, %0
%2 = mul %0, 2
    cand %1, %2

%0 = var
%1 = and %0, %0
    cand %1, %0
---
%0 = var
%1 = add %0, %0
%2 = mul %0, 2
cand %1 %2

%0 = var
%1 = and %0, %0
cand %1 %0


=== rep two pairs without commas

;; 1
%0 = var
%1 = add %0, %0
%2 = mul %0, 2
    cand %1 %2

%0 = var
%1 = and %0, %0
    cand %1 %0
---
%0 = var
%1 = add %0, %0
%2 = mul %0, 2
cand %1 %2

%0 = var
%1 = and %0, %0
cand %1 %0


=== rep pair with a type and a comma
cand 1:i8,-2
---
cand 1:i8 -2


=== lhs operands with a type and a sign
%x:i8 = select 1:i8, 2, -3
infer %x
---
%x:i8 = select 1:i8, 2, -3
infer %x


=== lhs reserved constant
%x = reservedconst
infer %x
---
%x = reservedconst
infer %x


=== lhs reserved instruction
%x = reservedinst
infer %x
---
%x = reservedinst
infer %x


=== lhs operands in the other order
%a = var
%b = var
%c = add %b, %a
infer %c
---
%b = var
%a = var
%c = add %b, %a
infer %c


=== lhs two items in one line
%x = var infer %x %x = var infer %x
---
%x = var
infer %x

%x = var
infer %x


=== lhs newline at the end
%x:i32 = var
%y = mul %x, 2
infer %y

---
%x:i32 = var
%y = mul %x, 2
infer %y


=== lhs variable
%a = var
infer %a
---
%a = var
infer %a


=== lhs variable of another name
%b = var
infer %b
---
%b = var
infer %b


=== lhs number as a name
%1 = var
infer %1

---
%1 = var
infer %1


=== lhs number of three digits
%999 = var
infer %999

---
%999 = var
infer %999


=== rep replacement without a newline at the end
%a = var
infer %a
result 1
---
%a = var
infer %a
result 1


=== rep pair of a variable and a constant
%a = var
cand %a 1
---
%a = var
cand %a 1


=== rep pair with a condition
%x:i32 = var
%1lx = slt 1, %x
%2lx = slt 2, %x
pc %2lx 1
cand %1lx 1

---
%x:i32 = var
%1lx = slt 1, %x
%2lx = slt 2, %x
pc %2lx 1
cand %1lx 1


=== rep pair of phis
%bb = block 3
%phi2 = phi %bb, 2:i32, 4, 6
%phi1 = phi %bb, 1:i32, 2, 3
%phi1x2 = mul %phi1, 2
cand %phi2 %phi1x2

---
%bb = block 3
%phi2 = phi %bb, 2:i32, 4, 6
%phi1 = phi %bb, 1:i32, 2, 3
%phi1x2 = mul %phi1, 2
cand %phi2 %phi1x2


=== rep pair of two values
%0 = var
%1 = add %0, %0
%2 = mul %0, 2
cand %1 %2

---
%0 = var
%1 = add %0, %0
%2 = mul %0, 2
cand %1 %2


=== rep pair of a value and its operand
%0 = var
%1 = and %0, %0
cand %1 %0

---
%0 = var
%1 = and %0, %0
cand %1 %0


=== lhs infer in comments, attribute on a line of its own
%x = var ; infer %x
; infer %x
%y = var
infer %y
(harvestedFromUse)
%x = var
infer %x
---
%y = var
infer %y (harvestedFromUse)

%x = var
infer %x


=== lhs definition that begins on the line before
%x = var infer %x %y
= var
infer
%y %z:i8 = var

infer %z ; end

---
%x = var
infer %x

%y = var
infer %y

%z:i8 = var
infer %z


=== lhs each token on a line of its own
%x
=
var
infer
%x
(
demandedBits
=
01
)
%x = var
infer %x

---
%x = var
infer %x (demandedBits=01)

%x = var
infer %x


=== rep operands on further lines
%x = var
infer %x
%y = add %x, 1
pc %y 1
result
%y
cand 1
2
%x = var
cand %x
%x
cand 1,
2

---
%x = var
%y = add %x, 1
pc %y 1
infer %x
result %y

cand 1 2

%x = var
cand %x %x

cand 1 2


";
