//! Replacements to which counterexamples are searched.
use souper_ir::parse::parse_replacements_str;
use souper_meaning::{Mode, Refutation, World, refute};
use std::alloc::Global;
use std::fmt::Write;
use std::process::Abort;

fn mode(rt: &impl Abort, word: &str) -> Mode {
    if word == "poison" {
        return Mode::PoisonInputs;
    }
    assert_eq!(rt; word, "values");
    Mode::ValueInputs
}

fn push_world(rt: &impl Abort, text: &mut String, world: &World) {
    let values = world.values.as_slice();
    let predecessors = world.predecessors.as_slice();
    let choices = world.choices.as_slice();
    write!(text, "refuted {values:?} {predecessors:?} {choices:?}").expect(rt, "memory");
}

// What the search says of the first replacement.
fn said(rt: &impl Abort, alloc: Global, source: &str, given: &str) -> String {
    let items = parse_replacements_str(alloc, source, None).expect(rt, source);
    let item = items.first().expect(rt, "an item");
    let (word, numbers) = given.split_once(' ').expect(rt, given);
    let (tries, seed) = numbers.split_once(' ').expect(rt, given);
    let tries = tries.parse().expect(rt, tries);
    let seed = seed.parse().expect(rt, seed);
    let mut text = String::new(alloc);
    match refute(item, tries, seed, mode(rt, word)) {
        Ok(Refutation::Refuted(world)) => push_world(rt, &mut text, &world),
        Ok(Refutation::Unrefuted(met)) => write!(text, "unrefuted {met}").expect(rt, "memory"),
        Err(_) => text.push_str("no plan").expect(rt, "memory"),
    }
    text
}

// One line of a case: a mode, a number of tries, a seed, and after `=>` what the search says.
fn judge_run(rt: &impl Abort, alloc: Global, source: &str, run: &str) {
    let (given, want) = run.split_once(" => ").expect(rt, run);
    let found = said(rt, alloc, source, given);
    assert_eq!(rt; found.as_str(), want, "in {source} {run}");
}

// Each case is a line with `===` and a name, the text of a replacement, a line with `---`, and lines with what the search says.
const SEARCHED: &str = "
=== a shift for a product
%x:i8 = var
%y = mul %x, 2
infer %y
%z = shl %x, 1
result %z
---
values 1000 7 => unrefuted 1000
poison 1000 7 => unrefuted 1000
values 0 7 => unrefuted 0

=== without signed wrap
%x:i8 = var
%y = mulnsw %x, -128
infer %y
%z = shlnsw %x, 7
result %z
---
values 1 0 => unrefuted 1
values 2 0 => refuted [Number(1), Number(0), Number(0)] [0, 0, 0] [0, 0, 0]

=== an or for a select
%c:i1 = var
%x:i1 = var
%s = select %c, 1:i1, %x
infer %s
%o = or %c, %x
result %o
---
values 1000 5 => unrefuted 1000
poison 10 5 => unrefuted 10
poison 11 5 => refuted [Number(1), Poison, Number(0), Number(0)] [0, 0, 0, 0] [0, 0, 0, 0]
poison 9 6 => unrefuted 9
poison 10 6 => refuted [Number(1), Poison, Number(0), Number(0)] [0, 0, 0, 0] [0, 0, 0, 0]

=== without a freeze
%x:i4 = var
%f = freeze %x
infer %f
result %x
---
values 1000 0 => unrefuted 1000
poison 1000 0 => refuted [Poison, Number(0)] [0, 0] [0, 15]
poison 1000 1 => refuted [Poison, Number(0)] [0, 0] [0, 9]

=== bits that only random numbers have
%x:i64 = var
%a = lshr %x, 32
%b = and %a, 15
%c = eq %b, 9
infer %c
result 0:i1
---
values 156 0 => unrefuted 156
values 157 0 => refuted [Number(176377856095498798), Number(0), Number(0), Number(0)] [0, 0, 0, 0] [0, 0, 0, 0]
values 1000 1 => refuted [Number(10731169687155909285), Number(0), Number(0), Number(0)] [0, 0, 0, 0] [0, 0, 0, 0]

=== a condition
%x:i8 = var
%c = ult %x, 8
pc %c 1:i1
%r = urem %x, 8
infer %r
result %x
---
values 1000 0 => unrefuted 1000
poison 1000 0 => unrefuted 1000

=== a condition that does not hold
%x:i8 = var
%c = ult %x, 8
pc %c 0:i1
%r = urem %x, 8
infer %r
result %x
---
values 1000 0 => refuted [Number(8), Number(0), Number(0), Number(0)] [0, 0, 0, 0] [0, 0, 0, 0]

=== an input that is a constant
%x:i128 = var
%c = eq %x, 123456789
pc %c 1:i1
infer %x
result 123456789
---
values 300 0 => unrefuted 300
poison 300 0 => unrefuted 300

=== an input that is not a constant
%x:i128 = var
%c = eq 0, %x
pc %c 0:i1
%d = ne %x, 0
infer %d
result 1:i1
---
values 1000 0 => unrefuted 1000

=== signed numbers between two
%x:i32 = var
%c = slt -4, %x
pc %c 1:i1
%d = sle 100, %x
pc %d 0:i1
%e = add %x, 3
%f = ule %e, 102
infer %f
result 1:i1
---
values 1000 0 => unrefuted 1000
poison 1000 0 => unrefuted 1000

=== signed numbers between two, and one more
%x:i32 = var
%c = slt -4, %x
pc %c 1:i1
%d = sle 100, %x
pc %d 0:i1
%e = add %x, 3
%f = ult %e, 102
infer %f
result 1:i1
---
values 1000 0 => refuted [Number(99), Number(0), Number(0), Number(0), Number(0), Number(0), Number(0)] [0, 0, 0, 0, 0, 0, 0] [0, 0, 0, 0, 0, 0, 0]

=== a bit
%x:i1 = var
pc %x 1:i1
%y:i8 = var
%z = select %x, %y, 0
infer %z
result %y
---
values 100 0 => unrefuted 100
poison 100 0 => unrefuted 100

=== a condition on a sum
%x:i8 = var
%y = add %x, 1
%c = ult %y, 8
pc %c 1:i1
%d = ult %x, 7
infer %d
result 1:i1
---
values 1000 0 => refuted [Number(255), Number(0), Number(0), Number(0), Number(0)] [0, 0, 0, 0, 0] [0, 0, 0, 0, 0]

=== a division by 2
%x:i8 = var
%s = sdiv %x, 2
infer %s
%a = ashr %x, 1
result %a
---
values 2 0 => unrefuted 2
values 3 0 => refuted [Number(255), Number(0), Number(0)] [0, 0, 0] [0, 0, 0]

=== too few sign bits
%x:i8 = var (signBits=4)
%s = shl %x, 4
%r = ashr %s, 4
infer %r
result %x
---
values 15 0 => unrefuted 15
values 16 0 => refuted [Number(8), Number(0), Number(0)] [0, 0, 0] [0, 0, 0]

=== a bit that is wanted
%x:i8 = var
%r = or %x, 248
infer %r (demandedBits=00001111)
result %x
---
values 1 0 => refuted [Number(0), Number(0)] [0, 0] [0, 0]

=== two phis of two blocks
%b = block 2
%d = block 2
%p:i8 = phi %b, 1, 3
%q:i8 = phi %d, 1, 3
%c = eq %p, %q
infer %c
result 1:i1
---
values 10 0 => refuted [Number(0), Number(0), Number(0), Number(0), Number(0)] [1, 0, 0, 0, 0] [0, 0, 0, 0, 0]
values 10 2 => refuted [Number(0), Number(0), Number(0), Number(0), Number(0)] [0, 1, 0, 0, 0] [0, 0, 0, 0, 0]

=== facts that contradict each other
%x:i8 = var (range=[1,10)) (negative)
infer %x
result 7:i8
---
values 100 0 => unrefuted 0

=== a block without predecessors
%b = block 0
%p = phi %b
%q:i8 = add %p, 1
infer %q
result 1
---
values 5 0 => unrefuted 0

=== a left-hand side that is undefined
%x:i8 = var
%d = udiv %x, 0
infer %d
result 0
---
values 10 0 => unrefuted 10

=== a hole
%x:i8 = var
infer %x
%h = hole
result %h
---
values 256 0 => no plan
";

#[test]
fn counterexamples_are_searched(rt: HostRuntime) {
    let rest = SEARCHED.strip_prefix("\n=== ").expect(&rt, "no case");
    let rest = rest.strip_suffix("\n").expect(&rt, "no newline at the end");
    for lines in rest.split("\n\n=== ") {
        let (_name, parts) = lines.split_once('\n').expect(&rt, lines);
        let (source, runs) = parts.split_once("\n---\n").expect(&rt, lines);
        for run in runs.lines() {
            judge_run(&rt, rt.alloc(), source, run);
        }
    }
}
