//! Items with all their widths.
use crate::cases::judge_cases;

// Widths of results, of operands, and of the last lines.
const TYPED: &str = "
=== rep one type is enough
%x:i8 = var
%y = mul %x, 2
infer %y
%z = shl %x, 1
result %z
---
[8, 8, 8] [0, 8, 8] 8

=== lhs a later line has the type
%x = var
%y:i8 = add %x, 1
infer %y
---
[8, 8] [0, 8] 8

=== rep the result has it
%x = var
infer %x
result 5:i7
---
[7] [0] 7

=== rep cand
%x:i16 = reservedinst
cand %x -1
---
[16] [0] 16

=== rhs a constant alone
result 5:i3
---
[] [] 3

=== lhs a comparison
%x:i8 = var
%y = ult %x, 200
infer %y
---
[8, 1] [0, 8] 1

=== lhs conversions
%x:i8 = var
%y:i16 = zext %x
%z:i32 = sext %y
%w:i4 = trunc %z
infer %w
---
[8, 16, 32, 4] [0, 8, 16, 32] 4

=== lhs select
%c = var
%x:i8 = var
%y = select %c, %x, 0
%z = select -1, %y, 255
infer %z
---
[1, 8, 8, 8] [0, 0, 8, 8] 8

=== lhs phi
%b = block 2
%x = var
%y = phi %b, %x, 3:i5
infer %y
---
[0, 5, 5] [0, 0, 5] 5

=== lhs parts of a pair
%x:i8 = var
%y = uadd.with.overflow %x, 1
%z = extractvalue %y, 0
%w = extractvalue %y, 1:i32
%v = select %w, %z, 0
infer %v
---
[8, 9, 8, 1, 8] [0, 8, 9, 9, 8] 8

=== lhs the type of a pair
%x = var
%y:i9 = smul.with.overflow %x, %x
%z = extractvalue %y, 0:i16
infer %z
---
[8, 9, 8] [0, 8, 9] 8

=== lhs the widest pair
%x:i65535 = var
%y = ssub.with.overflow %x, %x
%z = extractvalue %y, 1
infer %z
---
[65535, 65536, 1] [0, 65535, 65536] 1

=== lhs bytes and shifts
%x:i16 = var
%y = bswap %x
%z = fshl %y, %x, 3
%w = freeze %z
infer %w
---
[16, 16, 16, 16] [0, 16, 16, 16] 16

=== lhs path conditions
%b = block 2
%x = var
%y = ctpop %x
pc %y 1
blockpc %b 1 %x 3:i6
infer %y
---
[0, 6, 6, 0, 0] [0, 0, 6, 6, 6] 6

=== lhs facts
%x:i4 = var (knownBits=0x1x) (signBits=4) (range=[-8,15)) (nonZero) (hasExternalUses)
%y:i4 = reservedconst (range=[0,0)) (range=[-1,15)) (signBits=0)
%z = add %x, %y (hasExternalUses)
infer %z (demandedBits=0011) (harvestedFromUse)
---
[4, 4, 4] [0, 0, 4] 4

=== lhs statements that are not needed
%x:i8 = var
%y:i4 = add %x, 1:i3
%z = add %x, 1
infer %z
---
[8, 0, 8] [0, 0, 8] 8

=== lhs a hole
%x:i4 = hole
%y = or %x, -8
infer %y
---
[4, 4] [0, 4] 4

=== lhs constants of both spellings
%x:i8 = var
%y = add %x, 255:i8
%z = add %y, -128
%w = add %z, -1:i8
infer %w
---
[8, 8, 8, 8] [0, 8, 8, 8] 8
";

#[test]
fn items_are_typed(rt: HostRuntime) {
    judge_cases(&rt, rt.alloc(), TYPED);
}
