//! What is found, as texts.

use souper_graph::ast::{Item, LeftHandSide};
use souper_ir::parse::{parse_left_hand_sides_str, parse_replacements_str};
use souper_lookup::find::find;
use souper_lookup::store::{Added, Store};
use std::alloc::Global;
use std::process::Abort;

// A case has its name, the replacements that are added, a left-hand side, and the answers, each after its count.
const CASES: &str = "
=== other names
%x:i32 = var
%1 = mul %x, 2
infer %1
%2 = shl %x, 1
result %2
---
%a:i32 = var
%b = mul %a, 2
infer %b
---
; count 1
%a:i32 = var
%b = mul %a, 2
infer %b
%2 = shl %a, 1
result %2

=== another order of definitions
%x:i8 = var
%y:i8 = var
%z = sub %y, %x
infer %z
result %y
---
%p:i8 = var
%q:i8 = var
%r = sub %p, %q
infer %r
---
; count 1
%p:i8 = var
%q:i8 = var
%r = sub %p, %q
infer %r
result %p

=== statements that nothing needs
%x:i32 = var
%1 = mul %x, 2
%2 = shl %x, 1
%3 = add %2, %1
infer %1
result %2
---
%a:i32 = var
%u = add %a, 1
%b = mul %a, 2
infer %b
---
; count 1
%a:i32 = var
%b = mul %a, 2
infer %b
%2 = shl %a, 1
result %2

=== names of statements that nothing needs are taken
%x:i32 = var
%1 = mul %x, 2
infer %1
%2 = shl %x, 1
result %2
---
%a:i32 = var
%2 = add %a, 1
%b = mul %a, 2
infer %b
---
; count 1
%a:i32 = var
%b = mul %a, 2
infer %b
%3 = shl %a, 1
result %3

=== path conditions in another order
%x:i8 = var
%y:i8 = var
pc %x 1
pc %y 2
infer %x
result 1
---
%x:i8 = var
%y:i8 = var
pc %y 2
pc %x 1
infer %x
---

=== path conditions have no names, and count
%x:i8 = var
pc %x 1
infer %x
%y = add %x, 0
result %y
---
%a:i8 = var
pc %a 1
infer %a
---
; count 1
%a:i8 = var
pc %a 1
infer %a
%2 = add %a, 0
result %2

=== a condition on a predecessor
%b = block 2
%x:i8 = var
%y:i8 = var
%p = phi %b, %x, %y
blockpc %b 0 %x 1
infer %p
result %x
---
%c = block 2
%u:i8 = var
%v:i8 = var
%q = phi %c, %u, %v
blockpc %c 0 %u 1
infer %q
---
; count 1
%c = block 2
%u:i8 = var
%v:i8 = var
%q = phi %c, %u, %v
blockpc %c 0 %u 1
infer %q
result %u

=== a condition on another predecessor
%b = block 2
%x:i8 = var
blockpc %b 0 %x 1
infer %x
result 1
---
%b = block 2
%x:i8 = var
blockpc %b 1 %x 1
infer %x
---

=== an attribute of a statement
%x:i8 = var (nonZero)
infer %x
result 1
---
%x:i8 = var
infer %x
---

=== attributes of the infer line
%x:i4 = var
infer %x (demandedBits=0011)
result 1

%x:i4 = var
infer %x
result 2
---
%a:i4 = var
infer %a
---
; count 1
%a:i4 = var
infer %a
result 2

=== the type of a constant
%x:i8 = var
pc %x 1:i8
infer %x
result 1
---
%x:i8 = var
pc %x 1
infer %x
---

=== both forms of one replacement
%x:i8 = var
%y = add %x, %x
%z = shl %x, 1
cand %y %z

%a:i8 = var
%b = add %a, %a
infer %b
%c = shl %a, 1
result %c
---
%n:i8 = var
%m = add %n, %n
infer %m
---
; count 2
%n:i8 = var
%m = add %n, %n
infer %m
%2 = shl %n, 1
result %2

=== two answers, and numbers that are taken
%x:i32 = var
%y = mul %x, 2
infer %y
%z = shl %x, 1
%w = add %z, 0
result %w

%x:i32 = var
%y = mul %x, 3
infer %y
result 0

%x:i32 = var
%y = mul %x, 2
infer %y
%z = add %x, %x
result %z
---
%3:i32 = var
%2 = mul %3, 2
infer %2
---
; count 1
%3:i32 = var
%2 = mul %3, 2
infer %2
%4 = shl %3, 1
%5 = add %4, 0
result %5
; count 1
%3:i32 = var
%2 = mul %3, 2
infer %2
%4 = add %3, %3
result %4

=== a constant is replaced
cand 3 4
---
%x:i8 = var
infer %x
---
";

fn store_of(rt: &impl Abort, alloc: Global, text: &str) -> Store {
    let mut store = Store::new(alloc);
    let items = parse_replacements_str(alloc, text, None).expect(rt, text);
    for item in items {
        store.add(item).expect(rt, text);
    }
    store
}

// The answers for a left-hand side, each after its count.
fn answers(rt: &impl Abort, alloc: Global, store: &Store, query: &LeftHandSide) -> String {
    let mut out = String::new(alloc);
    let stored = store.get(query).expect(rt, "stored");
    let found = find(alloc, store, query).expect(rt, "found");
    assert!(rt; stored.len() == found.len(), "lengths");
    for (entry, answer) in stored.iter().zip(&found) {
        let count = entry.count;
        writeln!(out, "; count {count}").expect(rt, "count");
        answer.append_text(&mut out).expect(rt, "answer");
    }
    out
}

fn check(rt: &impl Abort, alloc: Global, case: &str) {
    let (_name, parts) = case.split_once('\n').expect(rt, case);
    let (stored, rest) = parts.split_once("\n---\n").expect(rt, case);
    let (asked, want) = rest.split_once("\n---\n").expect(rt, case);
    let store = store_of(rt, alloc, stored);
    let queries = parse_left_hand_sides_str(alloc, asked, None).expect(rt, case);
    assert!(rt; queries.len() == 1, "{case}");
    for query in &queries {
        let found = answers(rt, alloc, &store, query);
        assert!(rt; found.as_str() == want, "{case}");
    }
}

#[test]
fn answers_are_as_written(rt: HostRuntime) {
    let rest = CASES.strip_prefix("\n=== ").expect(&rt, "no case");
    for case in rest.split("\n=== ") {
        check(&rt, rt.alloc(), case);
    }
}

#[test]
fn each_graph_is_stored_once(rt: HostRuntime) {
    let alloc = rt.alloc();
    let text = "%x:i8 = var infer %x result 1
        %y:i8 = var infer %y result 1
        cand 3 4
        %y:i8 = var infer %y result 2
        %z:i8 = var cand %z 1";
    let items = parse_replacements_str(alloc, text, None).expect(&rt, "items");
    let mut store = Store::new(alloc);
    let mut outcomes = String::new(alloc);
    for item in items {
        let added = store.add(item).expect(&rt, "added");
        write!(outcomes, "{added:?} ").expect(&rt, "written");
    }
    assert_eq!(rt; outcomes.as_str(), "New Again NoLeftHandSide New Again ");
}
