//! Items that are not evaluated, and worlds of other items.
use crate::cases::judge_cases;

const REFUSED: &str = "
=== lhs a number of 129 bits
%x:i129 = var
%y = trunc %x
%z = add %y, 1:i8
infer %z
---
;; => too wide at 0

=== lhs a pair of 129 bits
%x:i128 = var
%p = uadd.with.overflow %x, 1
%v = extractvalue %p, 0
infer %v
---
;; => too wide at 1

=== rep roots of 129 bits
cand 0:i129 0
---
;; => too wide roots

=== rep a hole
%x:i129 = var
%y:i8 = trunc %x
infer %y
%h = hole
result %h
---
;; => hole at 2

=== rep no widths
%x:i8 = var
infer %x
result 300
---
;; => no widths

=== lhs values of other items
%x:i8 = var
%y:i8 = reservedconst
%z = add %x, %y
infer %z
---
255 255;; => Some(Number(254)) None true
256 255;; => not a world at 0
undefined 255;; => not a world at 0
255 poison;; => not a world at 1
255;; => not a world at 1
";

#[test]
fn items_are_refused(rt: HostRuntime) {
    judge_cases(&rt, rt.alloc(), REFUSED);
}
