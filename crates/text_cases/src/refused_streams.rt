//! Texts that are rejected as streams, each with the number of items that are taken before.

/// The cases.
pub const REFUSED_STREAMS: &str = "
=== lhs undefined name
infer %x

---
0
=== lhs right-hand side
result 1

---
0
=== lhs unknown instruction
%x = foo
infer %x
%x = var
infer %x

---
0
=== lhs unknown root attribute
%x = var
infer %x (bad)
%x = var
infer %x

---
0
=== lhs bracket after a definition
%x = var ]
infer %x
%x = var
infer %x

---
0
=== lhs undefined name before a carriage return
%x = var
infer %y\u{d}
%x = var
infer %x

---
0
=== lhs end in place of an infer line
%x = var
---
0
=== lhs unknown token after an item
%x = var
infer %x
#
%x = var
infer %x

---
0
=== lhs second definition of a name in the second item
%x = var
infer %x
%z = var
%z = var
infer %z
%x = var
infer %x

---
1
=== lhs pair after an item
%x = var infer %x
cand 1 2

---
1
=== rep undefined name after operands on further lines
%x = var
infer %x
%y = add %x, 1
pc %y 1
result
%y
cand 1
2
%x = var
cand %x
%x
cand %x

---
3
";
