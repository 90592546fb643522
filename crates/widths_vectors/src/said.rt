//! What is said of items without widths.
use souper_ir::ast::Item;
use souper_ir::parse::{
    parse_left_hand_sides_str, parse_replacements_str, parse_right_hand_sides_str,
};
use souper_untyped::FlawText;
use souper_widths::{WidthsError, widths};
use std::alloc::Global;
use std::process::Abort;

// Each case: a kind and a name, a text, the lines of the error.
const SAID: &str = "
=== lhs both widths
%x:i32 = var
%y:i8 = add %x, 1
infer %y
---
no widths: i32 and i8 clash
statement 2: %y:i8 = add %x, 1

=== lhs the last line
%x:i8 = var
%p = uadd.with.overflow %x, 1
infer %p (demandedBits=00000000)
---
no widths: only extractvalue takes the value of a word .with.overflow
last line: infer %p (demandedBits=00000000)

=== rep the result line
%x:i8 = var
infer %x
result 256
---
no widths: a constant does not fit its width
last line: result 256

=== rep the cand line
%x:i8 = var
cand %x 1:i9
---
no widths: i9 and i8 clash
last line: cand %x 1:i9

=== lhs a variable
%x = var
%y = add %x, 1
infer %y
---
no widths: a width is missing
statement 1: %x = var
hint: write %x:i32

=== lhs a conversion
%x:i8 = var
%y = zext %x
infer %y
---
no widths: a width is missing
statement 2: %y = zext %x
hint: write %y:i32

=== lhs a conversion of a constant
%y:i32 = zext 1
infer %y
---
no widths: a width is missing
statement 1: %y:i32 = zext 1
hint: write 1:i8

=== lhs a constant that is made narrower
%y = trunc 300
infer %y
---
no widths: a width is missing
statement 1: %y = trunc 300
hint: write 300:i64

=== lhs a conversion of a constant with a type
%y = sext -1:i8
infer %y
---
no widths: a width is missing
statement 1: %y = sext -1:i8
hint: write %y:i32

=== lhs a comparison of constants
%x = slt -1, 2
infer %x
---
no widths: a width is missing
statement 1: %x = slt -1, 2
hint: write -1:i32

=== lhs a pair of constants
%x = uadd.with.overflow 1, 2
%y = extractvalue %x, 1
infer %y
---
no widths: a width is missing
statement 1: %x = uadd.with.overflow 1, 2
hint: write %x:i33

=== lhs a path condition of constants
%x:i8 = var
pc 1 2
infer %x
---
no widths: a width is missing
statement 2: pc 1 2
hint: write 1:i32

=== rhs a constant
result 5
---
no widths: a width is missing
last line: result 5
hint: write 5:i32
";

fn said<T: Item + Drop>(rt: &impl Abort, alloc: Global, items: &[T]) -> String {
    let item = items.first().expect(rt, "an item");
    let mut lines = String::new(alloc);
    if let Err(WidthsError::Flawed(flaw)) = widths(item) {
        let text = FlawText::new(alloc, item, flaw).expect(rt, "memory");
        text.append_lines(alloc, &mut lines).expect(rt, "memory");
    }
    lines
}

fn said_of(rt: &impl Abort, alloc: Global, kind: &str, source: &str) -> String {
    if kind == "lhs" {
        let items = parse_left_hand_sides_str(alloc, source, None).expect(rt, source);
        return said(rt, alloc, &items);
    }
    if kind == "rhs" {
        let items = parse_right_hand_sides_str(alloc, source, None).expect(rt, source);
        return said(rt, alloc, &items);
    }
    let items = parse_replacements_str(alloc, source, None).expect(rt, source);
    said(rt, alloc, &items)
}

fn judge(rt: &impl Abort, alloc: Global, case: &str) {
    let (head, parts) = case.split_once('\n').expect(rt, case);
    let (kind, _name) = head.split_once(' ').expect(rt, case);
    let (source, want) = parts.split_once("\n---\n").expect(rt, case);
    let lines = said_of(rt, alloc, kind, source);
    let found = lines.as_str().strip_suffix("\n").expect(rt, case);
    assert_eq!(rt; found, want, "in {case}");
}

#[test]
fn errors_have_their_lines(rt: HostRuntime) {
    let rest = SAID.strip_prefix("\n=== ").expect(&rt, "no case");
    let rest = rest.strip_suffix("\n").expect(&rt, "no newline at the end");
    for case in rest.split("\n\n=== ") {
        judge(&rt, rt.alloc(), case);
    }
}
