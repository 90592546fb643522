//! Rejected texts, each with its hint.

/// The cases.
pub const REJECTED: &str = "
=== lhs misspelt instruction
%x = var
%y = ad %x, 1
infer %y
---
did you mean 'add'?
=== lhs letters of an instruction swapped
%x = var
%y = mlu %x, 2
infer %y
---
did you mean 'mul'?
=== lhs misspelt instruction of many letters
%x = var
%y = uadd.with.overflw %x, 1
infer %y
---
did you mean 'uadd.with.overflow'?
=== lhs letters of a short instruction swapped
%x = var
%y = adn %x, 1
infer %y
---
did you mean 'and'?
=== lhs letter of an instruction doubled
%x = var
%y = orr %x, 1
infer %y
---
did you mean 'or'?
=== lhs letter missing in one instruction or another
%x = var
%y = fsh %x, 1, 1
infer %y
---

=== lhs other letter in a long instruction
%x = var
%y = addnsv %x, 1
infer %y
---
did you mean 'addnsw'?
=== lhs other letter in a short instruction
%x = var
%y = ror %x, 1
infer %y
---

=== lhs instruction in capitals
%x = var
%y = ADD %x, 1
infer %y
---
did you mean 'add'?
=== lhs word like no instruction
%x = var
%y = load %x
infer %y
---

=== lhs short word like no instruction
%x = var
%y = foo %x
infer %y
---

=== lhs misspelt var
%x = vra
infer %x
---
did you mean 'var'?
=== lhs misspelt block
%b = blck 2
infer %b
---
did you mean 'block'?
=== lhs misspelt infer
%x = var
infr %x
---
did you mean 'infer'?
=== lhs infer with a capital letter
%x = var
Infer %x
---
did you mean 'infer'?
=== rhs misspelt result
%x = var
reslt %x
---
did you mean 'result'?
=== rep misspelt cand
cnd 1 2
---
did you mean 'cand'?
=== rep misspelt result
%x = var
infer %x
resutl 1
---
did you mean 'result'?
=== rep word like no last line
%x = var
infer %x
return 1
---

=== lhs misspelt pc
%x = var
pcc %x 1
infer %x
---
did you mean 'pc'?
=== lhs misspelt blockpc
%b = block 1
bockpc %b 0 1 1
infer %b
---
did you mean 'blockpc'?
=== lhs letter before pc
%b = block 2
bpc %b 0 1 1
infer 1
---

=== lhs equals sign after infer with a capital letter
%x = var
Infer = %x
---
did you mean 'infer'?
=== rhs type after result
%x = var
result:i8 %x
---
a type comes after the name that is defined or a constant: '%y:i32 = add %x, 1:i32'
=== rhs colon after result
%x = var
result: %x
---

=== lhs colon after pc
%x = var
pc: %x 1
infer %x
---
'pc' has no ':' between its operands
=== lhs colon in a path condition
%x = var
pc %x : 1
infer %x
---
'pc' has no ':' between its operands
=== lhs colon between operands
%x = var
%y = add %x: %x
infer %y
---

=== lhs last line of another kind
%x = var
result %x
---

=== rhs infer line of a right-hand side
%x = var
infer %x
---

=== lhs misspelt attribute
%x = var (powerOfTow)
infer %x
---
did you mean 'powerOfTwo'?
=== lhs attribute in small letters
%x = var (knownbits=01)
infer %x
---
did you mean 'knownBits'?
=== lhs attribute in other letters
%x = var (NonZero)
infer %x
---
did you mean 'nonZero'?
=== lhs word like no attribute
%x = var (foo)
infer %x
---

=== lhs attribute after another one's prefix
%x = var (knownNegative)
infer %x
---

=== lhs attribute after no in place of has
%x = var (noExternalUses)
infer %x
---

=== lhs attribute after no
%x = var (noPowerOfTwo)
infer %x
---

=== lhs attribute after un
%x = var (unNegative)
infer %x
---

=== lhs attribute after a letter
%x = var (nNegative)
infer %x
---

=== lhs attribute after a letter that is doubled
%x = var (nnegative)
infer %x
---

=== lhs short attribute after a letter
%x = var (nrange)
infer %x
---

=== lhs known bits after un
%x = var (unknownBits=01)
infer %x
---

=== lhs part of two attributes
%x = var (knownZero=01)
infer %x
---

=== lhs attribute with a letter missing
%x = var (signBit=2)
infer %x
---
did you mean 'signBits'?
=== lhs attribute with another letter
%x = var (powerOfTwa)
infer %x
---
did you mean 'powerOfTwo'?
=== lhs attribute of a root after un
%x = var
infer %x (undemandedBits=1)
---

=== lhs misspelt attribute of a root
%x = var
infer %x (demandedbit=01)
---
did you mean 'demandedBits'?
=== rep misspelt attribute of a cand
%x = var
cand %x 1 (harvestedfromUse)
---
did you mean 'harvestedFromUse'?
=== lhs attribute of a definition after infer
%x = var
infer %x (nonZero)
---
this attribute comes after a definition
=== lhs known bits after infer
%x = var
infer %x (knownBits=01)
---
this attribute comes after a definition
=== lhs attribute of a root after a definition
%x = var (demandedBits=01)
infer %x
---
this attribute comes after 'infer' with its name
=== lhs misspelt name after infer
%count = var
infer %cuont
---
did you mean '%count'?
=== lhs misspelt name of an operand
%right = var
%left = var
%sum = add %lft, 1
infer %sum
---
did you mean '%left'?
=== lhs name with a capital letter
%x = var
infer %X
---
did you mean '%x'?
=== lhs misspelt name of a block
%block1 = block 2
%p = phi %blok1, 1, 2
infer %p
---
did you mean '%block1'?
=== lhs misspelt name of a block near a value
%b1x = var
%bb1 = block 2
%p = phi %b1, 1, 2
infer %p
---
did you mean '%bb1'?
=== lhs misspelt name of a value near a block
%left = block 1
%lefts = var
infer %leftt
---
did you mean '%lefts'?
=== lhs name of one letter
%x = var
infer %y
---

=== lhs name that is a number
%10 = var
infer %11
---

=== lhs number where names are
%x10 = var
infer %10
---

=== lhs name with another number
%x1 = var
%x2 = var
infer %x3
---

=== lhs name without its number
%value1 = var
infer %value
---

=== lhs name with a number more
%value = var
infer %value1
---

=== lhs name with a digit doubled
%value1 = var
infer %value11
---

=== lhs name with another first letter
%lhs = var
infer %rhs
---

=== lhs name with another first letter and a number
%zext1 = var
infer %sext1
---

=== lhs name of three letters with another last one
%sum = var
infer %sun
---
did you mean '%sum'?
=== lhs name of two letters with another last one
%xa = var
infer %xb
---

=== lhs name like two others
%foobar = var
%foobaz = var
infer %foobat
---

=== lhs name like one other
%foobar = var
infer %foobat
---
did you mean '%foobar'?
=== lhs letters of one letter more
%xa = var
infer %x
---

=== lhs letter of a name doubled
%low = var
%lowx = var
infer %llow
---
did you mean '%low'?
=== lhs name of a block with another number
%blk = block 2
%blk2 = block 2
blockpc %blk3 0 1 1
infer 1
---

=== lhs name of its own definition
%total = add %total, 1
infer %total
---

=== lhs misspelt name of its own definition
%total = add %totl, 1
infer %total
---

=== lhs name of the item before
%left = var
infer %left

%right = var
infer %lft
---

=== lhs name that a comment has
%x = var ; %left = var
infer %lft
---

=== lhs value in place of a block
; one
%x:i8 = var
%p = phi %x, 1
infer %p
---
'%x' is no block; its definition is on line 2
=== lhs unsigned greater
%x = var
%y = ugt %x, 1
infer %y
---
write 'ult' with the operands swapped
=== lhs unsigned greater or equal
%x = var
%y = uge %x, 1
infer %y
---
write 'ule' with the operands swapped
=== lhs signed greater
%x = var
%y = sgt %x, 1
infer %y
---
write 'slt' with the operands swapped
=== lhs signed greater or equal
%x = var
%y = sge %x, 1
infer %y
---
write 'sle' with the operands swapped
=== lhs comparison as in LLVM
%x = var
%y = icmp ult i32 %x, 1
infer %y
---
write the comparison alone: 'eq', 'ne', 'ult', 'slt', 'ule' or 'sle'
=== lhs comparison without its kind
%x = var
%y = cmp ult %x, 1
infer %y
---
write the comparison alone: 'eq', 'ne', 'ult', 'slt', 'ule' or 'sle'
=== lhs greater without a sign
%x = var
%y = gt %x, 1
infer %y
---
write 'ult' (unsigned) or 'slt' (signed) with the operands swapped
=== lhs greater or equal without a sign
%x = var
%y = ge %x, 1
infer %y
---
write 'ule' (unsigned) or 'sle' (signed) with the operands swapped
=== lhs less or equal with another letter
%x = var
%y = ulte %x, 1
infer %y
---
did you mean 'ule'?
=== lhs comparison in capitals
%x = var
%y = UGT %x, 1
infer %y
---
write 'ult' with the operands swapped
=== lhs comparison with a point
%x = var
%y = ICMP.eq %x, 1
infer %y
---
write the comparison alone: 'eq', 'ne', 'ult', 'slt', 'ule' or 'sle'
=== lhs greater as in LLVM
%x = var
%y = icmp ugt i8 %x, 1
infer %y
---
write 'ult' with the operands swapped
=== lhs greater as in LLVM in capitals
%x = var
%y = ICMP SGE i8 %x, 1
infer %y
---
write 'sle' with the operands swapped
=== lhs greater after a point
%x = var
%y = icmp.sgt %x, 1
infer %y
---
write 'slt' with the operands swapped
=== lhs greater without a sign as in LLVM
%x = var
%y = icmp gt %x, 1
infer %y
---
write 'ult' (unsigned) or 'slt' (signed) with the operands swapped
=== lhs misspelt comparison as in LLVM
%x = var
%y = imcp eq %x, 1
infer %y
---
write the comparison alone: 'eq', 'ne', 'ult', 'slt', 'ule' or 'sle'
=== lhs misspelt greater as in LLVM
%x = var
%y = imcp ugt %x, 1
infer %y
---
write 'ult' with the operands swapped
=== lhs letter of a comparison doubled
%x = var
%y = ugtt %x, 1
infer %y
---
write 'ult' with the operands swapped
=== lhs letters of a comparison swapped
%x = var
%y = gut %x, 1
infer %y
---
write 'ult' with the operands swapped
=== lhs letter missing in ult or ugt
%x = var
%y = ut %x, 1
infer %y
---

=== lhs not in capitals
%x = var
%y = NOT %x
infer %y
---
there is no 'not'; write 'xor' with -1
=== lhs not equal
%x = var
%y = neq %x, 0:i8
infer %y
---
did you mean 'ne'?
=== lhs logical shift right
%x = var
%y = srl %x, 1
infer %y
---
did you mean 'lshr'?
=== lhs arithmetic shift right
%x = var
%y = sar %x, 1
infer %y
---
did you mean 'ashr'?
=== lhs select without vowels
%x = var
%y = slct %x, 1, 2
infer %y
---
did you mean 'select'?
=== lhs saturated sum without a sign
%x = var
%y = add.sat %x, 1
infer %y
---
write 'uadd.sat' (unsigned) or 'sadd.sat' (signed)
=== lhs product with overflow without a sign
%x = var
%y = mul.with.overflow %x, 1
infer %y
---
write 'umul.with.overflow' (unsigned) or 'smul.with.overflow' (signed)
=== lhs sum with overflow without a sign
%x = var
%y = add.with.overflow %x, 1
infer %y
---
write 'uadd.with.overflow' (unsigned) or 'sadd.with.overflow' (signed)
=== lhs not
%x = var
%y = not %x
infer %y
---
there is no 'not'; write 'xor' with -1
=== lhs neg
%x = var
%y = neg %x
infer %y
---
there is no 'neg'; write 'sub' from 0
=== lhs division without a sign
%x = var
%y = div %x, 2
infer %y
---
write 'udiv' (unsigned) or 'sdiv' (signed)
=== lhs remainder by another word
%x = var
%y = mod %x, 2
infer %y
---
write 'urem' (unsigned) or 'srem' (signed)
=== lhs shift without a sign
%x = var
%y = shr %x, 2
infer %y
---
write 'lshr' (unsigned) or 'ashr' (signed)
=== lhs type before the operands
%x = var
%y = add i32 %x, 1
infer %y
---
a type comes after the name that is defined or a constant: '%y:i32 = add %x, 1:i32'
=== lhs type of a conversion
%x = var
%y = zext i8 %x to i32
infer %y
---
a type comes after the name that is defined or a constant: '%x:i8 = var', '%y:i32 = zext %x'
=== lhs type after var
%x = var i8
infer %x
---
a type comes after the name that is defined or a constant: '%y:i32 = add %x, 1:i32'
=== lhs type after var and a colon
%x = var:i8
infer %x
---
a type comes after the name that is defined or a constant: '%y:i32 = add %x, 1:i32'
=== lhs type before the right side
%x = i8 var
infer %x
---
a type comes after the name that is defined or a constant: '%y:i32 = add %x, 1:i32'
=== lhs type of an operand
%x = var
%y = add %x:i8, 1
infer %y
---
a type comes after the name that is defined or a constant: '%y:i32 = add %x, 1:i32'
=== lhs type after a constant without a colon
%x = var
%y = add 1i8, %x
infer %y
---
a type comes after the name that is defined or a constant: '%y:i32 = add %x, 1:i32'
=== lhs name of a type without its percent sign
%i8 = var
%y = add i8, 1
infer %y
---
did you mean '%i8'?
=== lhs type of an operand of a path condition
%x = var
pc %x:i1 1
infer %x
---
a type comes after the name that is defined or a constant: '%y:i32 = add %x, 1:i32'
=== lhs two flags
%x = var
%y = add nuw nsw %x, 1
infer %y
---
did you mean 'addnw'?
=== lhs two flags in the other order
%x = var
%y = shl nsw nuw %x, 1
infer %y
---
did you mean 'shlnw'?
=== lhs flag after an instruction with a flag
%x = var
%y = subnuw nsw %x, 1
infer %y
---
did you mean 'subnw'?
=== lhs flag after an instruction with both
%x = var
%y = mulnw nsw %x, 1
infer %y
---

=== lhs one flag twice
%x = var
%y = add nuw nuw %x, 1
infer %y
---
did you mean 'addnuw'?
=== lhs flag after an instruction with the same
%x = var
%y = addnuw nuw %x, 1
infer %y
---

=== lhs flag after a space
%x = var
%y = add nsw %x, 1
infer %y
---
did you mean 'addnsw'?
=== lhs exact division
%x = var
%y = udiv exact i32 %x, 2
infer %y
---
did you mean 'udivexact'?
=== lhs hex number as the last operand
%x = var
%y = add %x, 0x1F
infer %y
---
numbers are decimal: 31
=== lhs hex number as the first operand
%y = sub 0x10, 1
infer %y
---
numbers are decimal: 16
=== lhs negative hex number
%x = var
pc -0x8 %x
infer %x
---
numbers are decimal: -8
=== lhs hex number of an attribute
%x = var (signBits=0x2)
infer %x
---
numbers are decimal: 2
=== lhs hex number in place of bits
%x = var
infer %x (demandedBits=0x1)
---

=== lhs binary number in place of known bits
%x = var (knownBits=0b11)
infer %x
---

=== lhs hex number of 72 bits
%x = var
%y = and %x, 0xffffffffffffffffff
infer %y
---
numbers are decimal: 4722366482869645213695
=== lhs greatest constant as a hex number
%x = var
%y = and %x, 0x7fffffffffffffffffffffffffffffff
infer %y
---
numbers are decimal: 170141183460469231731687303715884105727
=== lhs hex number beyond the greatest constant
%x = var
%y = and %x, 0x80000000000000000000000000000000
infer %y
---
numbers are decimal
=== lhs hex number of 129 bits
%x = var
%y = and %x, 0x100000000000000000000000000000000
infer %y
---
numbers are decimal
=== lhs hex number with an underscore
%x = var
%y = add %x, 0xF_F:i32
infer %y
---
numbers are decimal: 255
=== lhs digit that is none of the base
%x = var
%y = add %x, 0b12
infer %y
---

=== lhs hex number with capital letters
%x = var
%y = add %x, 0XFF
infer %y
---
numbers are decimal: 255
=== lhs hex number of a range
%x = var (range=[0x8,16))
infer %x
---
numbers are decimal: 8
=== lhs binary number
%x = var
%y = add %x, 0b101
infer %y
---
numbers are decimal: 5
=== lhs zero and a word
%x = var
%y = add %x, 0x
infer %y
---

=== lhs zero and a word of two letters
%x = var
%y = add %x, 0bd
infer %y
---

=== lhs word after a number
%x = var
%y = add %x, 10 x1
infer %y
---

=== lhs true
%x = var
pc %x true
infer %x
---
write '1:i1' for 'true'
=== lhs false
%x = var
%y = eq %x, false
infer %y
---
write '0:i1' for 'false'
=== lhs true with a capital letter
%x = var
pc %x True
infer %x
---
write '1:i1' for 'true'
=== lhs false in capitals
%x = var
%y = eq %x, FALSE
infer %y
---
write '0:i1' for 'false'
=== lhs true as a right side
%x = true
infer %x
---
write '1:i1' for 'true'
=== lhs misspelt false
%x = var
%y = eq %x, fasle
infer %y
---
write '0:i1' for 'false'
=== lhs misspelt true as a name
%x = var
%tru = var
%y = eq %x, tru
infer %y
---
did you mean '%tru'?
=== lhs null
%x = var
%y = eq %x, null
infer %y
---

=== lhs comment after a number sign
# one
%x = var
infer %x
---
a comment begins with ';'
=== lhs comment after two slashes
%x = var // one
infer %x
---
a comment begins with ';'
=== lhs comment as in C
%x = var /* one */
infer %x
---
a comment begins with ';'
=== lhs one slash
%x = var / 2
infer %x
---

=== lhs comment after two hyphens
%x = var
-- one
infer %x
---

=== lhs definition without its percent sign
x = var
infer %x
---
did you mean '%x'?
=== lhs definition of a number without its percent sign
%x = var
1 = add %x, 0
infer %1
---
did you mean '%1'?
=== lhs attribute after infer without parentheses
%x = var
infer %x demandedBits=1111
---

=== lhs typed definition without its percent sign
%y = var
x:i8 = var
infer %y
---
did you mean '%x'?
=== lhs operand without its percent sign
%x = var
%y = add x, 1
infer %y
---
did you mean '%x'?
=== lhs root without its percent sign
%x = var
infer x
---
did you mean '%x'?
=== lhs block without its percent sign
%b = block 1
%p = phi b, 1
infer %p
---
did you mean '%b'?
=== lhs word in place of an operand
%y = add z, 1
infer %y
---
a name begins with '%'
=== lhs instruction in place of an operand
%x = var
%y = add mul %x, 2
infer %y
---
an operand is a constant or a name; an instruction has a definition of its own
=== lhs not in place of an operand
%x = var
%y = add not %x, 1
infer %y
---
an operand is a constant or a name; an instruction has a definition of its own
=== lhs comparison in place of an operand
%x = var
pc ugt %x 1
infer %x
---
an operand is a constant or a name; an instruction has a definition of its own
=== lhs instruction in place of a root
%x = var
infer add %x, 1
---
an operand is a constant or a name; an instruction has a definition of its own
=== lhs word before an operand
%x = var
%y = add nws %x, 1
infer %y
---

=== lhs type after infer
%x = var
infer i32 %x
---
a type comes after the name that is defined or a constant: '%y:i32 = add %x, 1:i32'
=== lhs type after phi
%b = block 1
%p = phi i32 %b, 1
infer %p
---
a type comes after the name that is defined or a constant: '%y:i32 = add %x, 1:i32'
=== lhs type of a result
%x = var
%y = zext %x to i32
infer %y
---
a type comes after the name that is defined or a constant: '%x:i8 = var', '%y:i32 = zext %x'
=== lhs undef
%x = var
%y = add %x, undef
infer %y
---
there is no 'undef' or 'poison'
=== rep poison
%x = var
cand %x poison
---
there is no 'undef' or 'poison'
=== rep result as a name
%x = var
infer %x
result = add %x, 0
result 1
---
did you mean '%result'?
=== rep result as a name before infer
result = var
infer 1
---
did you mean '%result'?
=== lhs pc as a name
pc:i8 = var
infer %x
---
did you mean '%pc'?
=== lhs infer as a name
infer = var
infer %x
---
did you mean '%infer'?
=== lhs colon after infer
%x = var
infer: %x
---

=== lhs equals sign after infer
%x = var
infer = %x
---

=== lhs true as a root
%x = var
infer true
---

=== lhs comma in a path condition
%x = var
pc %x, 1
infer %x
---
'pc' has no ',' between its operands
=== lhs comma in a path condition on a predecessor
%b = block 2
%x = var
blockpc %b 0 %x, 1
infer %x
---
'blockpc' has no ',' between its operands
=== lhs equals sign in a path condition
%x = var
pc %x = 1
infer %x
---
'pc' has no '=' between its operands
=== rep equals sign of a cand
%x = var
cand %x = 1
---
'cand' has no '=' between its operands
=== rep second comma of a cand
cand 1,,2
---

=== rhs comma in place of an operand
result ,
---

=== lhs an operand too few
%x = var
%y = add %x
infer %y
---
'add' takes 2 operands
=== lhs two operands too few
%y = select 1
infer %y
---
'select' takes 3 operands
=== lhs no operand
%y = add
infer %y
---
'add' takes 2 operands
=== lhs an operand too few at the end
%x = var
%y = add %x,
---
'add' takes 2 operands
=== lhs an operand too many
%x = var
%y = add %x, 1, 2
infer %y
---
'add' takes 2 operands
=== lhs an operand too many without a comma
%x = var
%y = zext %x %x
infer %y
---
'zext' takes 1 operand
=== lhs number too many after a type
%y:i8 = add 1:i8, 2:i8, 3:i8
infer %y
---
'add' takes 2 operands
=== lhs operand of hole
%y = hole 1
infer %y
---
'hole' takes no operands
=== lhs operand of var
%y = var 1
infer %y
---
'var' takes no operands
=== lhs path condition with one operand
%x = var
pc %x
infer %x
---
'pc' takes 2 operands
=== lhs path condition with three operands
%x = var
pc %x 1 1
infer %x
---
'pc' takes 2 operands
=== lhs blockpc with three operands
%b = block 2
blockpc %b 0 1
infer 1
---
'blockpc' takes 4 operands
=== lhs blockpc with five operands
%b = block 2
blockpc %b 0 1 1 1
infer 1
---
'blockpc' takes 4 operands
=== lhs block of no number
%b = block
%p = phi %b, 1
infer %p
---
'block' takes 1 operand
=== lhs block of two numbers
%b = block 2, 3
%p = phi %b, 1, 2
infer %p
---
'block' takes 1 operand
=== lhs infer line of two names
%x = var
infer %x, %x
---
'infer' takes 1 operand
=== lhs infer line of no name
%x = var
infer
---
'infer' takes 1 operand
=== lhs an operand too few before a definition
%a1:i8 = var
%a2 = add %a1,
%a3 = mul %a1, 2
infer %a3
---
'add' takes 2 operands
=== lhs no operand before a definition
%x = var
%y = ctpop
%z:i8 = add %y, 1
infer %z
---
'ctpop' takes 1 operand
=== lhs path condition with one operand before a definition
%x = var
pc %x
%z = add %x, 1
infer %z
---
'pc' takes 2 operands
=== lhs a value of a phi too few before a definition
%b = block 2
%p = phi %b, 1,
%z = add %p, 1
infer %z
---
'%b' has 2 predecessors, and a phi has a value for each
=== rep infer line of no name before a definition
%x = var
infer
%z = add %x, 1
result %z
---
'infer' takes 1 operand
=== lhs no right side before a definition
%x:i8 =
%y = add %x, 1
infer %y
---
the right side after '=' is missing
=== lhs infer line of two names without a comma
%x = var
%y = add %x, 1
infer %y %x
---
'infer' takes 1 operand
=== rhs result line of two names
%x = var
result %x %x
---
'result' takes 1 operand
=== rep cand line of three operands
%x = var
cand %x 1 %x
---
'cand' takes 2 operands
=== lhs an unknown name too many
%x = var
%y = add %x, 1 %w
infer %y
---
'add' takes 2 operands
=== lhs name on the line after infer
%x = var
infer %x
%y
---

=== lhs number at the beginning of a line
%x = var
infer %x

2: %y = var
infer %y
---

=== lhs comma after the last operand
%x = var
%y = add %x, 1:i8,
infer %y
---
no ',' comes after the last operand
=== lhs comma after the root
%x = var
infer %x,
---
no ',' comes after the last operand
=== lhs operands without a comma
%x = var
%y = add %x 1
infer %y
---

=== lhs a value of a phi too few
%b = block 2
%p = phi %b, 1
infer %p
---
'%b' has 2 predecessors, and a phi has a value for each
=== lhs a value of a phi too many
%x = var
%b = block 2
%p = phi %b, 1, %x, 3
infer %p
---
'%b' has 2 predecessors, and a phi has a value for each
=== lhs two values of a phi of one predecessor
%b = block 1
%p = phi %b, 1, 2
infer %p
---
'%b' has 1 predecessor, and a phi has a value for each
=== lhs width 0
%x:i0 = var
infer %x
---
the width of a type is 1 to 65535
=== lhs width 65536
%x = var
%y = add %x, 1:i65536
infer %y
---
the width of a type is 1 to 65535
=== lhs number in place of a type
%x:8 = var
infer %x
---
did you mean 'i8'?
=== lhs number beyond the widths in place of a type
%x:65536 = var
infer %x
---
the width of a type is 1 to 65535
=== lhs unsigned type
%x:u8 = var
infer %x
---
did you mean 'i8'?
=== lhs type in capitals
%x:I65536 = var
infer %x
---
the width of a type is 1 to 65535
=== lhs word in place of a type
%x:int = var
infer %x
---

=== lhs second definition
; one
%x = var
%y = var
%y = add %x, 1
infer %y
---
'%y' is defined on line 3
=== lhs second definition of the first name
; one
%x = var
%y = var
%x = add %y, 1
infer %x
---
'%x' is defined on line 2; if line 4 begins another item, the 'infer' line is missing before it
=== lhs second definition on the same line
%x = var %x = var
infer %x
---
'%x' is defined on line 1
=== lhs infer line is missing between two items
%x = var
%y = add %x, 1

; two
%x = var
infer %x
---
'%x' is defined on line 1; if line 5 begins another item, the 'infer' line is missing before it
=== lhs infer line is missing, and the next item begins with another name
%x = var
%y = add %x, 1

%z = var
%y = add %z, 1
infer %y
---
'%y' is defined on line 2; if line 4 begins another item, the 'infer' line is missing before it
=== rhs result line is missing between two items
%x = var

%x = var
result %x
---
'%x' is defined on line 1; if line 3 begins another item, the 'result' line is missing before it
=== rep result line is missing between two items
%x = var

infer %x
%z = add %x, 0

%y = var
infer %y
result %y
---
the 'result' line is missing before line 6
=== rep result line is missing, without an empty line
%x = var
infer %x
%y = var
cand %y 1
---
the 'result' line is missing above
=== rep second infer line
%x = var
infer %x
infer %x
---
the 'result' line is missing before line 3
=== rep infer line is missing
%x = var
result %x
---
the 'infer' line is missing before line 2
=== lhs infer line is missing at the end
%x = var (nonZero)
---
the 'infer' line is missing at the end
=== lhs infer line is missing after a phi
%b = block 2
%p = phi %b, 1, 2
---
the 'infer' line is missing at the end
=== lhs infer line is missing after a path condition
%b = block 2
blockpc %b 0 1 1
; one
---
the 'infer' line is missing at the end
=== rhs result line is missing at the end
%x = var
---
the 'result' line is missing at the end
=== rep last lines are missing at the end
%x = var
---
the 'infer' or 'cand' line is missing at the end
=== rep result line is missing at the end
%x = var
infer %x
---
the 'result' line is missing at the end
=== lhs end in an attribute
%x = var (nonZero
---

=== lhs end after a name
%x = var
%y
---

=== lhs byte order mark
\u{feff}%x = var
infer %x
---
the text begins with a byte order mark (U+FEFF); save it without
=== lhs byte order mark after the beginning
%x = var\u{feff}
infer %x
---
this is a byte order mark (U+FEFF); remove it
=== lhs byte order mark between two items
%x = var
infer %x
\u{feff}%x = var
infer %x
---
this is a byte order mark (U+FEFF); remove it
=== lhs bracket at the end of a range
%x = var (range=[0,8])
infer %x
---
a range ends with ')' and does not include its end: '(range=[0,8))' is 0 to 7
=== lhs bracket outside a range
%x = var
%y = add %x, 1]
infer %y
---

=== lhs constant as a right side
%x = 5
infer %x
---
a constant or a name is no right side; write it where it is used
=== lhs name as a right side
%x = var
%y = %x
infer %y
---
a constant or a name is no right side; write it where it is used
=== lhs definition without its sign
%x var
infer %x
---

=== lhs character of two bytes
%x = var \u{e9}
infer %x
---

=== lhs name of a later definition near another one
%vals = var
%y = add %val, 1
%z = mul %y, 2
%val = var
infer %z
---
'%val' is defined later, on line 4
=== lhs name that the next item defines
%vals = var
infer %val

%val = var
infer %val
---
did you mean '%vals'?
=== lhs name with another last letter after the one like it
%argA = var
%y = add %argA, %argB
infer %y
---

=== lhs name with another last letter before the one like it
%argA = var
%y = add %argB, %argA
infer %y
---

=== lhs type before the operands of a comparison
%x = var
%y = ult i32 %x, 4
infer %y
---
a type comes after the name that is defined or a constant: '%x:i32 = var', '1:i32'
=== lhs type after an operand of a comparison
%x = var
%y = ult %x, %x:i32
infer %y
---
a type comes after the name that is defined or a constant: '%x:i32 = var', '1:i32'
=== lhs operator between operands
%x = var
%y = %x + 4
infer %y
---
write 'add' before its operands: 'add %x, 1'
=== lhs instruction between operands
%x = var
%y = %x mul 4
infer %y
---
write 'mul' before its operands: 'mul %x, 1'
=== lhs type of a real number
%x:f32 = var
infer %x
---

=== lhs word between three others
%x = var
%y = addn %x, 1
infer %y
---

=== rep attribute of a root after a definition
%x = var (harvestedFromUse)
cand %x 1
---
this attribute comes after 'infer' or 'cand' with its operands
=== rhs attribute of a root after a definition
%x = var (demandedBits=01)
result %x
---
a right-hand side has no 'demandedBits' and no 'harvestedFromUse'
=== rhs attribute of a root after result
%x = var
result %x (harvestedFromUse)
---
a right-hand side has no 'demandedBits' and no 'harvestedFromUse'
=== rep result line is missing after a definition, without an empty line
%x = var
infer %x
%y = add %x, 0
%z = var
infer %z
result %z
---
the 'result' line is missing above
=== lhs flag of a conversion
%x = var
%y = zext nneg %x
infer %y
---
there is no such flag; without it the meaning may change
=== lhs flag of or
%x = var
%y = or disjoint %x, 1
infer %y
---
there is no such flag; without it the meaning may change
=== lhs flag before a type
%x = var
%y = select fast i1 %x, 1, 2
infer %y
---
there is no such flag; without it the meaning may change
=== lhs flag as a name
%x = var
%y = add fast, %x
infer %y
---
a name begins with '%'
=== lhs comma before an attribute
%x = var
%y = add %x, 1, (nonZero)
infer %y
---
no ',' comes after the last operand
=== lhs true in place of a number
%b = block true
infer %b
---
'block' takes the number of its predecessors, as in 'block 2'
=== lhs word in place of the number of an attribute
%x = var (signBits=x)
infer %x
---

=== lhs hex number with a letter after it
%x = var
%y = add %x, FFh
infer %y
---

=== lhs null in capitals
%x = var
%y = eq %x, NULL
infer %y
---

=== lhs path condition of a block without the index
%b = block 2
%x = var
blockpc %b %x 1
infer %x
---
the index of a predecessor comes after the block, as in 'blockpc %b 0 %x 1'
=== lhs phi without a block
%p = phi
infer %p
---
'phi' takes a block and a value for each of its predecessors
=== lhs both flags in one word
%x = var
%y = addnuwnsw %x, 1
infer %y
---
did you mean 'addnw'?
=== lhs binary number in place of demanded bits, after white space
%x = var
infer %x (demandedBits = 0b1011)
---

=== lhs binary number in place of demanded bits, on another line
%x = var
infer %x (demandedBits =
0b1011)
---

=== lhs binary number in place of demanded bits, after a comment
%x = var
infer %x (demandedBits = ; bits
0b1011)
---

=== lhs binary number in place of known bits, after white space
%x = var (knownBits = 0b10)
infer %x
---

=== lhs binary number in place of known bits, after a space
%x = var (knownBits= 0b10)
infer %x
---

=== lhs hex number in place of demanded bits, with a letter after it
%x = var
infer %x (demandedBits=1Fh)
---

=== lhs misspelt name near another operand
%left = var
%y = add %left, %lfet
infer %y
---

=== lhs misspelt name near an operand after it
%count = var
%y = sub %cuont, %count
infer %y
---

=== lhs minus between operands
%x = var
%y = %x - 1
infer %y
---
write 'sub' before its operands: 'sub %x, 1'
=== lhs minus before the number
%x = var
%y = %x -1
infer %y
---
write 'sub' before its operands: 'sub %x, 1'
=== lhs minus before a negative number
%x = var
%y = %x - -1
infer %y
---
write 'sub' before its operands: 'sub %x, 1'
=== lhs minus without white space
%x = var
%y = %x-1
infer %y
---
write 'sub' before its operands: 'sub %x, 1'
=== lhs star between operands
%x = var
%y = %x * 2
infer %y
---
write 'mul' before its operands: 'mul %x, 1'
=== lhs ampersand between operands
%x = var
%y = %x & 1
infer %y
---
write 'and' before its operands: 'and %x, 1'
=== lhs bar between operands
%x = var
%y = %x | 1
infer %y
---
write 'or' before its operands: 'or %x, 1'
=== lhs caret between operands
%x = var
%y = %x ^ -1
infer %y
---
write 'xor' before its operands: 'xor %x, 1'
=== lhs shift between operands
%x = var
%y = %x << 1
infer %y
---
write 'shl' before its operands: 'shl %x, 1'
=== lhs shift without white space
%x = var
%y = %x<<1
infer %y
---
write 'shl' before its operands: 'shl %x, 1'
=== lhs two equals signs between operands
%x = var
%y = %x == 3
infer %y
---
write 'eq' before its operands: 'eq %x, 1'
=== lhs one equals sign between operands
%x = var
%y = %x = 3
infer %y
---
write 'eq' before its operands: 'eq %x, 1'
=== lhs exclamation mark between operands
%x = var
%y = %x != 3
infer %y
---
write 'ne' before its operands: 'ne %x, 1'
=== lhs constant before an operator
%x = var
%y = 1 + %x
infer %y
---
write 'add' before its operands: 'add %x, 1'
=== lhs word of a comparison between operands
%x = var
%y = %x ult 3
infer %y
---
write 'ult' before its operands: 'ult %x, 1'
=== lhs word of a sum between operands
%x = var
%y = %x add 1
infer %y
---
write 'add' before its operands: 'add %x, 1'
=== lhs slash between operands
%x = var
%y = %x / 2
infer %y
---
write 'udiv' (unsigned) or 'sdiv' (signed)
=== lhs percent sign between operands
%x = var
%y = %x % 2
infer %y
---
write 'urem' (unsigned) or 'srem' (signed)
=== lhs shift right between operands
%x = var
%y = %x >> 1
infer %y
---
write 'lshr' (unsigned) or 'ashr' (signed)
=== lhs less between operands
%x = var
%y = %x < 3
infer %y
---
write 'ult' (unsigned) or 'slt' (signed)
=== lhs less or equal between operands
%x = var
%y = %x <= 3
infer %y
---
write 'ule' (unsigned) or 'sle' (signed)
=== lhs greater between operands
%x = var
%y = %x > 3
infer %y
---
write 'ult' (unsigned) or 'slt' (signed) with the operands swapped
=== lhs greater or equal between operands
%x = var
%y = %x >= -3
infer %y
---
write 'ule' (unsigned) or 'sle' (signed) with the operands swapped
=== lhs operator of two characters of another meaning
%x = var
%y = %x && %x
infer %y
---
a constant or a name is no right side; write it where it is used
=== lhs comment after a name
%x = var
%y = %x // one
infer %y
---
a constant or a name is no right side; write it where it is used
=== lhs name before a right side
%x = var
%y = %x = add %x, 1
infer %y
---
a constant or a name is no right side; write it where it is used
=== lhs name before another definition
%x = var
%y = %x
%z = add %y, 1
infer %z
---
a constant or a name is no right side; write it where it is used
=== lhs name before a typed definition
%x = var
%y = %x
%z:i8 = add %y, 1
infer %z
---
a constant or a name is no right side; write it where it is used
=== lhs word like a shift, shrnuw
%x = var
%y = shrnuw %x, 1
infer %y
---

=== lhs word like a shift, shrnsw
%x = var
%y = shrnsw %x, 1
infer %y
---

=== lhs word like a shift, shrnw
%x = var
%y = shrnw %x, 1
infer %y
---

=== lhs word like a shift, lshlexact
%x = var
%y = lshlexact %x, 1
infer %y
---

=== lhs word like a shift, ashlexact
%x = var
%y = ashlexact %x, 1
infer %y
---

=== lhs true in place of the index
%b = block 2
%c = var
blockpc %b true %c 1
infer %c
---
the index of a predecessor comes after the block, as in 'blockpc %b 0 %x 1'
=== lhs word in place of the index
%b = block 2
%c = var
blockpc %b c 1
infer %c
---
the index of a predecessor comes after the block, as in 'blockpc %b 0 %x 1'
=== lhs greater as in LLVM in one word
%x = var
%y = icmpugt %x, 1
infer %y
---
write 'ult' with the operands swapped
=== lhs comparison as in LLVM in one word
%x = var
%y = icmpult %x, 1
infer %y
---
write the comparison alone: 'eq', 'ne', 'ult', 'slt', 'ule' or 'sle'
=== lhs greater as in LLVM after a flag
%x = var
%y = icmp samesign ugt i32 %x, 1
infer %y
---
write 'ult' with the operands swapped
=== lhs infer line is missing, without an empty line
%0 = var
%1 = add %0, 1
%0 = var
infer %0
---
'%0' is defined on line 1; if line 3 begins another item, the 'infer' line is missing before it
=== lhs second definition of the first name on the line of another
%0 = var
%1 = add %0, 1 %0 = var
infer %0
---
'%0' is defined on line 1
=== rep result line is missing, without an empty line, before the same name
%0 = var
infer %0
%0 = var
infer %0
result %0
---
'%0' is defined on line 1; if line 3 begins another item, the 'result' line is missing before it
=== lhs second definition of the first name of the second item
%0 = var
infer %0
%1 = var
%0 = var
%1 = var
infer %0
---
'%1' is defined on line 3; if line 5 begins another item, the 'infer' line is missing before it
=== rep result line after a whole replacement
%x = var
cand %x 1
result %x
---

=== lhs name one slip away from two others
%pt = var
%ptr = var
infer %ptt
---

=== lhs name with capitals near two others
%ptr = var
%pt = var
infer %PTR
---
did you mean '%ptr'?
=== lhs hex number with a letter after it, as the first operand
%x = var
%y = add 1Fh, %x
infer %y
---
numbers are decimal: 31
=== lhs hex number with a letter after it, as the last operand
%x = var
%y = add %x, 0FFh
infer %y
---
numbers are decimal: 255
=== lhs hex number of decimal digits with a letter after it
%x = var
%y = add %x, -10H
infer %y
---
numbers are decimal: -16
=== lhs word with a letter after white space
%x = var
%y = add %x, 1 Fh
infer %y
---

=== lhs number with letters that are no digits
%x = var
%y = add %x, 1gh
infer %y
---

=== lhs type after the number of a block
%b = block 2:i32
%p = phi %b, 1, 2
infer %p
---
'block' takes the number of its predecessors, as in 'block 2'
=== lhs type after the number of a block without a colon
%b = block 2 i32
%p = phi %b, 1, 2
infer %p
---
'block' takes the number of its predecessors, as in 'block 2'
=== lhs type before a definition after a block
%b = block 2
i32 %x = var
infer %x
---
a type comes after the name that is defined or a constant: '%y:i32 = add %x, 1:i32'
=== lhs types of a truncation
%x = var
%y = trunc i32 %x to i8
infer %y
---
a type comes after the name that is defined or a constant: '%x:i8 = var', '%y:i32 = zext %x'
=== lhs type of the operand of a conversion
%x = var
%y = zext %x:i8
infer %y
---
a type comes after the name that is defined or a constant: '%x:i8 = var', '%y:i32 = zext %x'
=== lhs type of the operand of a conversion with a type
%x = var
%y:i32 = zext i8 %x
infer %y
---
a type comes after the name that is defined or a constant: '%x:i8 = var', '%y:i32 = zext %x'
";
