//! Items with their first flaw: each reason, and which of two flaws is the first.
use crate::cases::judge_cases;

// Flaws of the shape.
const SHAPES: &str = "
=== lhs a block with a type
%b:i8 = block 2
%x = phi %b, 1:i8, 2
infer %x
---
statement 0 TypedBlock

=== lhs a fact on a sum
%x:i8 = var
%y = add %x, 1 (nonZero)
infer %y
---
statement 1 FactOnComputed

=== lhs a block as an operand
%b = block 2
%x:i8 = add %b, 1
infer %x
---
statement 1 BlockAsValue

=== rep a block as a root
%b = block 2
cand 1:i8 %b
---
cand BlockAsValue

=== lhs a pair as an operand
%x:i8 = var
%p = uadd.with.overflow %x, 1
%y = freeze %p
infer %y
---
statement 2 PairAsValue

=== lhs a pair as a root
%x:i8 = var
%p = uadd.with.overflow %x, 1
infer %p
---
infer PairAsValue

=== rep a pair as a result
%x:i8 = var
infer %x
%p = usub.with.overflow %x, 1
result %p
---
result PairAsValue

=== lhs no pair
%x:i8 = var
%y = extractvalue %x, 0
infer %y
---
statement 1 NotAPair

=== lhs the constant 2
%x:i8 = var
%p = uadd.with.overflow %x, 1
%y = extractvalue %p, 2
infer %y
---
statement 2 BadIndex

=== lhs no constant
%x:i8 = var
%p = uadd.with.overflow %x, 1
%y = extractvalue %p, %x
infer %y
---
statement 2 BadIndex

=== lhs a later flaw of the shape before a conflict
%x:i8 = var
%y:i4 = add %x, 1
%z = extractvalue %y, -1
infer %z
---
statement 2 NotAPair
";

// Conflicts, and widths that nothing says.
const CONFLICTS: &str = "
=== lhs two types
%x:i32 = var
%y:i8 = add %x, 1
infer %y
---
statement 1 Conflict { left: 32, right: 8 }

=== lhs a comparison has one bit
%x:i8 = var
%y:i8 = eq %x, 1
infer %y
---
statement 1 Conflict { left: 8, right: 1 }

=== lhs a constant of another type
%x:i8 = var
%y = add %x, 1:i9
infer %y
---
statement 1 Conflict { left: 9, right: 8 }

=== lhs a pair of one bit
%x = var
%p:i1 = uadd.with.overflow %x, %x
%y = extractvalue %p, 0
infer %y
---
statement 1 Conflict { left: 0, right: 1 }

=== lhs a pair is one bit wider
%x:i8 = var
%p:i8 = uadd.with.overflow %x, 1
%y = extractvalue %p, 0
infer %y
---
statement 1 Conflict { left: 8, right: 7 }

=== lhs the condition of select
%x:i8 = var
%y = select %x, %x, 0
infer %y
---
statement 1 Conflict { left: 8, right: 1 }

=== lhs a path condition
%x:i8 = var
pc %x 1:i1
infer %x
---
statement 1 Conflict { left: 1, right: 8 }

=== rep the result
%x:i8 = var
infer %x
%y:i4 = trunc %x
result %y
---
result Conflict { left: 4, right: 8 }

=== rep cand
cand 1:i8 2:i9
---
cand Conflict { left: 9, right: 8 }

=== lhs a variable
%x = var
infer %x
---
statement 0 Undetermined

=== lhs the operand of zext
%x = var
%y:i2 = zext %x
infer %y
---
statement 0 Undetermined

=== lhs the operands of a comparison
%x:i8 = var
%y = eq 1, 2
%z = select %y, %x, 0
infer %z
---
statement 1 Undetermined

=== rhs a constant without a type
result 5
---
result Undetermined

=== rep two constants without types
cand 1 2
---
cand Undetermined

=== lhs a later conflict before a width that nothing says
%x = var
%y:i4 = zext %x
%z:i5 = add %y, 1
infer %z
---
statement 2 Conflict { left: 4, right: 5 }
";

// Flaws of the limits.
const LIMITS: &str = "
=== lhs zext to the same width
%x:i8 = var
%y:i8 = zext %x
infer %y
---
statement 1 NotWider

=== lhs sext to fewer bits
%x:i8 = var
%y:i7 = sext %x
infer %y
---
statement 1 NotWider

=== lhs trunc to the same width
%x:i8 = var
%y:i8 = trunc %x
infer %y
---
statement 1 NotNarrower

=== lhs bswap of one byte
%x:i8 = var
%y = bswap %x
infer %y
---
statement 1 ByteSwap

=== lhs a constant that does not fit its type
%x:i8 = var
%y = add %x, 300:i8
infer %y
---
statement 1 ConstantTooWide

=== lhs a constant without a type that does not fit
%x:i8 = var
%y = add %x, -129
infer %y
---
statement 1 ConstantTooWide

=== lhs the condition of select
%x:i8 = var
%y = select 2, %x, 0
infer %y
---
statement 1 ConstantTooWide

=== rep a result that does not fit
%x:i3 = var
infer %x
result 8
---
result ConstantTooWide

=== lhs known bits
%x:i3 = var (knownBits=0x)
infer %x
---
statement 0 BitCount

=== lhs demanded bits
%x:i3 = var
infer %x (demandedBits=0101)
---
infer BitCount

=== lhs sign bits
%x:i3 = var (signBits=4)
infer %x
---
statement 0 SignBits

=== lhs an end of a range
%x:i8 = var (range=[0,256))
infer %x
---
statement 0 Range

=== lhs equal ends of a range
%x:i8 = var (range=[-2,254))
infer %x
---
statement 0 Range

=== lhs the first of two
%x:i8 = var (signBits=9)
%y:i8 = zext %x
infer %y
---
statement 0 SignBits

=== lhs known bits before sign bits
%x:i3 = var (signBits=4) (knownBits=0)
infer %x
---
statement 0 BitCount
";

#[test]
fn flaws_of_the_shape_come_first(rt: HostRuntime) {
    judge_cases(&rt, rt.alloc(), SHAPES);
}

#[test]
fn conflicts_are_found(rt: HostRuntime) {
    judge_cases(&rt, rt.alloc(), CONFLICTS);
}

#[test]
fn limits_are_kept(rt: HostRuntime) {
    judge_cases(&rt, rt.alloc(), LIMITS);
}
