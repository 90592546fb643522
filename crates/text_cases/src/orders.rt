//! Texts of items, each with three numbers of its first item: the statements that are printed, those of them before an
//! infer line, and the turns.

/// The cases.
pub const ORDERS: &str = "
=== lhs unneeded definition
%a = var
%b = var
infer %b
---
1 1 2
=== lhs operand of two instructions
%b = var
%a = add %b, 1
%c = add %a, %b
infer %c
---
3 3 7
=== lhs condition on a predecessor
%bb = block 2
%x:i8 = var
blockpc %bb 0 %x 1
infer %x
---
3 3 7
=== rhs constant
result 1
---
0 0 0
=== rhs right-hand side with a condition
%x = var
pc %x 1
result 2
---
2 2 4
=== rep pair with a condition
%x:i32 = var
%2lx = slt 2, %x
pc %2lx 1
%1lx = slt 1, %x
cand %1lx 1
---
4 4 9
=== rep pair of phis
%bb = block 3
%phi1 = phi %bb, 1:i32, 2, 3
%phi2 = phi %bb, 2:i32, 4, 6
%phi1x2 = mul %phi1, 2
cand %phi2 %phi1x2
---
4 4 9
=== rep statements after the infer line
%x = var
infer %x
%y = var
pc %y 1
result %y
---
3 3 7
=== rep replacement by a constant
%x = var
infer %x
result 1:i8
---
1 1 2
=== rep replacement by another variable
%a = var
%b = var
infer %a
result %b
---
2 1 4
";
