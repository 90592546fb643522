//! Two texts of lists of which not all graphs are pairwise the same.

/// The cases.
pub const DIFFERENT: &str = "
=== rep the order of path conditions matters
%a = var
%b = var
pc %a 1
pc %b 1
cand %a 2
---
%a = var
%b = var
pc %b 1
pc %a 1
cand %a 2

=== lhs names matter
%a = var
infer %a
---
%b = var
infer %b

=== lhs the order of operands matters
%a = var
%b = var
%c = add %a, %b
infer %c
---
%a = var
%b = var
%c = add %b, %a
infer %c

=== rep a pair is no result
%a = var
cand %a 1
---
%a = var
infer %a
result 1

=== lhs the second list is longer
%a = var
infer %a

---
%a = var
infer %a
%a = var
infer %a


=== lhs the first list is longer
%a = var
infer %a
%a = var
infer %a

---
%a = var
infer %a


=== lhs a type matters
%a:i8 = var
infer %a
---
%a = var
infer %a

=== lhs the width of a type matters
%a:i8 = var
infer %a
---
%a:i9 = var
infer %a

=== lhs an attribute of a statement matters
%a:i8 = var
infer %a
---
%a:i8 = var (nonZero)
infer %a

=== lhs an attribute of the root matters
%a:i8 = var
infer %a
---
%a:i8 = var
infer %a (harvestedFromUse)

=== rhs the order of operands matters
%a = var
%b = var
%c = sub %a, %b
result %c
---
%b = var
%a = var
%c = sub %b, %a
result %c

";
