//! Two texts of lists with pairwise the same graphs.

/// The cases.
pub const SAME: &str = "
=== lhs the order of statements does not matter
%b = var
%a = var
%c = add %a, %b
infer %c
---
%a = var
%b = var
%c = add %a, %b
infer %c

=== lhs a list is the same as itself
%b = var
%a = var
%c = add %a, %b
infer %c
---
%b = var
%a = var
%c = add %a, %b
infer %c

=== lhs unneeded statements do not matter
%a = var
%b = var
infer %b
---
%b = var
infer %b

=== rep the place of the infer line does not matter
%x = var
infer %x
%y = var
pc %y 1
result %y
---
%x = var
%y = var
pc %y 1
infer %x
result %y


=== rep a comma does not matter

;; 1
%0 = var
%1 = add %0, %0
%2 = mul %0, 2
    cand %1, %2

%0 = var
%1 = and %0, %0
    cand %1, %0

---

;; 1
%0 = var
%1 = add %0, %0
%2 = mul %0, 2
    cand %1 %2

%0 = var
%1 = and %0, %0
    cand %1 %0


=== lhs two items
%a = var
infer %a
%a = var
infer %a

---
%a = var
infer %a
%a = var
infer %a


=== lhs a type
%a:i8 = var
infer %a
---
%a:i8 = var
infer %a

=== rhs the order of definitions does not matter
%a = var
%b = var
%c = sub %a, %b
result %c
---
%b = var
%a = var
%c = sub %a, %b
result %c

";
