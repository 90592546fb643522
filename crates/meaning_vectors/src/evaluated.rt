//! Items that are evaluated.
use crate::cases::judge_cases;

// The outcomes on the left and on the right, and whether the world meets facts and conditions.
const EVALUATED: &str = "
=== rep a shift for a product
%x:i8 = var
%y = mul %x, 2
infer %y
%z = shl %x, 1
result %z
---
200;; => Some(Number(144)) Some(Number(144)) true
;; => Some(Poison) Some(Poison) true

=== rep without signed wrap
%x:i8 = var
%y = mulnsw %x, -128
infer %y
%z = shlnsw %x, 7
result %z
---
1;; => Some(Number(128)) Some(Poison) true
255;; => Some(Poison) Some(Number(128)) true

=== rep an arm that is not chosen
%c:i1 = var
%x:i1 = var
%s = select %c, 1:i1, %x
infer %s
%o = or %c, %x
result %o
---
1 poison;; => Some(Number(1)) Some(Poison) true
0 1;; => Some(Number(1)) Some(Number(1)) true

=== rep a choice
%x:i8 = var
%f = freeze %x
infer %f
result %x
---
poison;;0 7 => Some(Number(7)) Some(Poison) true
5;;0 7 => Some(Number(5)) Some(Number(5)) true
5;;0 256 => not a world at 1

=== rep undefined for poison
%y = addnsw 127:i8, 1
infer %y
%d = udiv 1:i8, 0
result %d
---
;; => Some(Poison) Some(Undefined) true

=== rep an undefined arm
%y:i8 = var
%s = and %y, 0
infer %s
%d = udiv 1, %y
%r = select 1:i1, 0, %d
result %r
---
0;; => Some(Number(0)) Some(Undefined) true
1;; => Some(Number(0)) Some(Number(0)) true
poison;; => Some(Poison) Some(Undefined) true

=== rep an operand that is not executed
%b = block 2
%y:i8 = var
%s = and %y, 0
blockpc %b 0 1:i1 0
infer %s
%d = udiv 1, %y
%r = phi %b, %d, 0
result %r
---
poison 0;1; => Some(Number(0)) Some(Number(0)) true
poison 0;0; => Some(Number(0)) Some(Undefined) false
poison 0;2; => not a world at 0

=== rep a condition
%x:i8 = var
%c = ult %x, 8
pc %c 1
%r = urem %x, 8
infer %r
result %x
---
7;; => Some(Number(7)) Some(Number(7)) true
9;; => Some(Number(1)) Some(Number(9)) false
poison;; => Some(Poison) Some(Poison) false

=== rep facts that contradict each other
%x:i8 = var (range=[1,10)) (negative)
infer %x
result 7:i8
---
5;; => Some(Number(5)) Some(Number(7)) false
200;; => Some(Number(200)) Some(Number(7)) false
poison;; => Some(Poison) Some(Number(7)) true

=== rep bits that are not wanted
%x:i8 = var
%r = or %x, 240
infer %r (demandedBits=00001111)
result %x
---
8;; => Some(Number(248)) Some(Number(8)) true

=== rep two blocks
%b = block 2
%d = block 2
%p = phi %b, 1:i8, 3
%q = phi %d, 1, 3
%c = eq %p, %q
infer %c
result 1
---
;0 1; => Some(Number(0)) Some(Number(1)) true
;1 1; => Some(Number(1)) Some(Number(1)) true

=== rep a freeze of poison
%b = block 2
%x:i8 = var
%p = phi %b, %x, 0
%m = mul %p, 0
infer %m
%f = freeze %x
%n = mul %f, 0
result %n
---
;0; => Some(Poison) Some(Number(0)) true
poison 9;1; => Some(Number(0)) Some(Number(0)) true

=== rep cand
%x:i8 = var
cand %x -1
---
3;; => Some(Number(3)) Some(Number(255)) true

=== rhs a right-hand side alone
%x:i4 = var
%y = addnw %x, 8
result %y
---
7;; => None Some(Number(15)) true
8;; => None Some(Poison) true

=== lhs known bits
%x:i8 = var (knownBits=1xxxxxx0)
infer %x
---
128;; => Some(Number(128)) None true
129;; => Some(Number(129)) None false
126;; => Some(Number(126)) None false

=== lhs sign bits
%x:i8 = var (signBits=2)
infer %x
---
192;; => Some(Number(192)) None true
63;; => Some(Number(63)) None true
64;; => Some(Number(64)) None false

=== lhs a power of two
%x:i8 = var (powerOfTwo)
infer %x
---
64;; => Some(Number(64)) None true
0;; => Some(Number(0)) None false
3;; => Some(Number(3)) None false

=== lhs signs
%x:i8 = var (nonNegative) (nonZero)
infer %x
---
127;; => Some(Number(127)) None true
128;; => Some(Number(128)) None false
0;; => Some(Number(0)) None false

=== lhs a range around 0
%x:i8 = var (range=[250,5))
infer %x
---
250;; => Some(Number(250)) None true
4;; => Some(Number(4)) None true
5;; => Some(Number(5)) None false
249;; => Some(Number(249)) None false

=== lhs the parts of a pair
%x:i8 = var
%p = uadd.with.overflow %x, 200
%o = extractvalue %p, 1
%v = extractvalue %p, 0
pc %o 1
infer %v
---
100;; => Some(Number(44)) None true
55;; => Some(Number(255)) None false

=== lhs 128 bits
%x:i128 = var
%y = add %x, 1
infer %y
---
340282366920938463463374607431768211455;; => Some(Number(0)) None true
";

#[test]
fn items_are_evaluated(rt: HostRuntime) {
    judge_cases(&rt, rt.alloc(), EVALUATED);
}
