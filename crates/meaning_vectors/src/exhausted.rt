//! Replacements of which all worlds are tried.
use souper_ir::parse::parse_replacements_str;
use souper_meaning::{Mode, Verdict, World, exhaust};
use std::alloc::Global;
use std::fmt::Write;
use std::process::Abort;

fn mode(rt: &impl Abort, word: &str) -> Mode {
    if word == "poison" {
        return Mode::PoisonInputs;
    }
    assert_eq!(rt; word, "values");
    Mode::ValueInputs
}

fn push_world(rt: &impl Abort, text: &mut String, world: &World) {
    let values = world.values.as_slice();
    let predecessors = world.predecessors.as_slice();
    let choices = world.choices.as_slice();
    write!(text, "refuted {values:?} {predecessors:?} {choices:?}").expect(rt, "memory");
}

// The verdict on the first replacement.
fn said(rt: &impl Abort, alloc: Global, source: &str, limit: u64, mode: Mode) -> String {
    let items = parse_replacements_str(alloc, source, None).expect(rt, source);
    let item = items.first().expect(rt, "an item");
    let mut text = String::new(alloc);
    match exhaust(item, limit, mode) {
        Ok(Verdict::Sound) => text.push_str("sound").expect(rt, "memory"),
        Ok(Verdict::Refuted(world)) => push_world(rt, &mut text, &world),
        Ok(Verdict::Vacuous) => text.push_str("vacuous").expect(rt, "memory"),
        Ok(Verdict::TooMany(count)) => write!(text, "too many {count}").expect(rt, "memory"),
        Err(_) => text.push_str("no plan").expect(rt, "memory"),
    }
    text
}

// One line of a case: a mode, a limit, and after `=>` the verdict.
fn judge_run(rt: &impl Abort, alloc: Global, source: &str, run: &str) {
    let (given, want) = run.split_once(" => ").expect(rt, run);
    let (word, limit) = given.split_once(' ').expect(rt, run);
    let found = said(
        rt,
        alloc,
        source,
        limit.parse().expect(rt, limit),
        mode(rt, word),
    );
    assert_eq!(rt; found.as_str(), want, "in {source} {run}");
}

// Each case is a line with `===` and a name, the text of a replacement, a line with `---`, and lines with verdicts.
const EXHAUSTED: &str = "
=== a shift for a product
%x:i8 = var
%y = mul %x, 2
infer %y
%z = shl %x, 1
result %z
---
values 256 => sound
values 255 => too many 256
poison 257 => sound
poison 256 => too many 257

=== without signed wrap
%x:i8 = var
%y = mulnsw %x, -128
infer %y
%z = shlnsw %x, 7
result %z
---
values 256 => refuted [Number(1), Number(0), Number(0)] [0, 0, 0] [0, 0, 0]

=== a select for an or
%c:i1 = var
%x:i1 = var
%o = or %c, %x
infer %o
%s = select %c, 1:i1, %x
result %s
---
values 4 => sound
poison 9 => sound

=== an or for a select
%c:i1 = var
%x:i1 = var
%s = select %c, 1:i1, %x
infer %s
%o = or %c, %x
result %o
---
values 4 => sound
poison 9 => refuted [Number(1), Poison, Number(0), Number(0)] [0, 0, 0, 0] [0, 0, 0, 0]

=== without a freeze
%x:i4 = var
%f = freeze %x
infer %f
result %x
---
values 256 => sound
poison 272 => refuted [Poison, Number(0)] [0, 0] [0, 0]

=== a division by 2
%x:i8 = var
%s = sdiv %x, 2
infer %s
%a = ashr %x, 1
result %a
---
values 1000 => refuted [Number(129), Number(0), Number(0)] [0, 0, 0] [0, 0, 0]

=== a condition that is needed
%x:i8 = var
%c = ult %x, 8
pc %c 1:i1
%r = urem %x, 8
infer %r
result %x
---
values 256 => sound
poison 257 => sound

=== a sum without its flag
%x:i4 = var
%y:i4 = var
%s = addnsw %x, %y
infer %s
%t = add %x, %y
result %t
---
values 256 => sound
poison 289 => sound

=== a quotient of a number by itself
%x:i8 = var
%s = udiv %x, %x
infer %s
result 1:i8
---
values 256 => sound
poison 257 => sound

=== an exact division by 4
%x:i8 = var
%s = sdivexact %x, 4
infer %s
%a = ashrexact %x, 2
result %a
---
values 256 => sound
poison 257 => sound

=== a number below its successor
%x:i8 = var
%s = addnsw %x, 1
%c = slt %x, %s
infer %c
result 1:i1
---
values 256 => sound
poison 257 => sound

=== a condition that poison does not meet
%x:i8 = var
%s = addnsw %x, 1
%c = slt %x, %s
pc %c 1:i1
%d = eq %x, 127
infer %d
result 0:i1
---
values 256 => sound
poison 257 => sound

=== a range around 0
%x:i8 = var (range=[-3,3))
%r = add %x, 3
%c = ult %r, 6
infer %c
result 1:i1
---
values 256 => sound
poison 257 => sound

=== too few sign bits
%x:i8 = var (signBits=4)
%s = shl %x, 4
%r = ashr %s, 4
infer %r
result %x
---
values 256 => refuted [Number(8), Number(0), Number(0)] [0, 0, 0] [0, 0, 0]

=== an overflow as a comparison
%x:i4 = var
%y:i4 = var
%o:i5 = uadd.with.overflow %x, %y
%c = extractvalue %o, 1
infer %c
%s = add %x, %y
%u = ult %s, %x
result %u
---
values 256 => sound
poison 289 => sound

=== a saturated difference
%x:i4 = var
%y:i4 = var
%c = ult %x, %y
%d = sub %x, %y
%s = select %c, 0, %d
infer %s
%r = usub.sat %x, %y
result %r
---
values 256 => sound
poison 289 => sound

=== two phis of one block
%b = block 2
%x:i8 = var
%p = phi %b, %x, 3
%q = phi %b, %x, 3
%c = eq %p, %q
infer %c
result 1:i1
---
values 512 => sound
poison 514 => sound

=== a condition on a predecessor
%b = block 2
%x:i8 = var
%n = ne %x, 0
blockpc %b 0 %n 1
%p = phi %b, %x, 1
%c = eq %p, 0
infer %c
result 0:i1
---
values 512 => sound
poison 514 => sound

=== facts that contradict each other
%x:i8 = var (range=[1,10)) (negative)
infer %x
result 7:i8
---
values 256 => vacuous
poison 257 => sound

=== bits that are not wanted
%x:i8 = var
%r = or %x, 240
infer %r (demandedBits=00001111)
result %x
---
values 256 => sound

=== a bit that is wanted
%x:i8 = var
%r = or %x, 248
infer %r (demandedBits=00001111)
result %x
---
values 256 => refuted [Number(0), Number(0)] [0, 0] [0, 0]

=== two phis of two blocks
%b = block 2
%d = block 2
%p = phi %b, 1:i8, 3
%q = phi %d, 1, 3
%c = eq %p, %q
infer %c
result 1
---
values 4 => refuted [Number(0), Number(0), Number(0), Number(0), Number(0)] [1, 0, 0, 0, 0] [0, 0, 0, 0, 0]

=== a block without predecessors
%b = block 0
%p = phi %b
%q:i8 = add %p, 1
infer %q
result 1
---
values 0 => vacuous

=== an input that is not needed
%y:i128 = var
%x:i1 = var
infer %x
result %x
---
values 2 => sound
values 1 => too many 2

=== more worlds than numbers
%x:i128 = var
%y:i128 = var
%z = add %x, %y
infer %z
result %x
---
values 18446744073709551615 => too many 340282366920938463463374607431768211455

=== a hole
%x:i8 = var
infer %x
%h = hole
result %h
---
values 256 => no plan
";

#[test]
fn replacements_are_exhausted(rt: HostRuntime) {
    let rest = EXHAUSTED.strip_prefix("\n=== ").expect(&rt, "no case");
    let rest = rest.strip_suffix("\n").expect(&rt, "no newline at the end");
    for lines in rest.split("\n\n=== ") {
        let (_name, parts) = lines.split_once('\n').expect(&rt, lines);
        let (source, runs) = parts.split_once("\n---\n").expect(&rt, lines);
        for run in runs.lines() {
            judge_run(&rt, rt.alloc(), source, run);
        }
    }
}
