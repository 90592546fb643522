//! Texts of items, each with the text of its first item when that is named by its printed order. The same difference has one text.

/// The cases.
pub const RENAMED: &str = "
=== lhs variable
%x = var
infer %x
---
%0 = var
infer %0

=== lhs type and attributes
%x = var
%y:i8 = add %x, %x (nonZero)
infer %y (harvestedFromUse)
---
%0 = var
%1:i8 = add %0, %0 (nonZero)
infer %1 (harvestedFromUse)

=== lhs conditions count, though they have no name
%x = var
%y = var
pc %x 1
pc %y 2
infer %x
---
%0 = var
pc %0 1
%2 = var
pc %2 2
infer %0

=== lhs order of the text, not of the definitions
%x = var
%y = var
%z = sub %y, %x
infer %z
---
%0 = var
%1 = var
%2 = sub %0, %1
infer %2

=== lhs condition on a predecessor
%x = var
%b = block 2
%y = var
%p = phi %b, %x, %y
blockpc %b 0 %x 1
infer %p
---
%0 = block 2
%1 = var
%2 = var
%3 = phi %0, %1, %2
blockpc %0 0 %1 1
infer %3

=== rep replacement by a value
%a = var
%b = mul %a, 2
infer %b
%c = shl %a, 1
result %c
---
%0 = var
%1 = mul %0, 2
infer %1
%2 = shl %0, 1
result %2

=== rep pair
%a = var
%b = add %a, 0
cand %b %a
---
%0 = var
%1 = add %0, 0
cand %1 %0

=== lhs difference of two variables
%x = var
%y = var
%z = sub %x, %y
infer %z
---
%0 = var
%1 = var
%2 = sub %0, %1
infer %2

=== lhs the same difference, of other names
%y = var
%x = var
%0 = sub %x, %y
infer %0
---
%0 = var
%1 = var
%2 = sub %0, %1
infer %2

=== lhs the same difference, of numbers
%1 = var
%2 = var
%3 = sub %1, %2
infer %3
---
%0 = var
%1 = var
%2 = sub %0, %1
infer %2

=== lhs difference of a variable and itself
%x = var
%z = sub %x, %x
infer %z
---
%0 = var
%1 = sub %0, %0
infer %1

=== rhs right-hand side of a value
%a = var
%b = mul %a, 2
result %b
---
%0 = var
%1 = mul %0, 2
result %1
=== rhs right-hand side of a constant
result 5:i8
---
result 5:i8
";
