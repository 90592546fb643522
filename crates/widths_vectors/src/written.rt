//! Items with all their widths written, and in their complete form.
use souper_ir::ast::Item;
use souper_ir::parse::{
    parse_left_hand_sides_str, parse_replacements_str, parse_right_hand_sides_str,
};
use souper_typed::{Form, TypedItem, complete, with_widths, write_widths};
use std::alloc::Global;
use std::process::Abort;

// Each case: a kind and a name, a text, its typed form, its complete form.
const WRITTEN: &str = "
=== rep one type is enough
%x:i8 = var
%y = mul %x, 2
infer %y
%z = shl %x, 1
result %z
---
%x:i8 = var
%y:i8 = mul %x, 2:i8
infer %y
%z:i8 = shl %x, 1:i8
result %z
---
%x:i8 = var
%y:i8 = mul %x, 2:i8
infer %y
%z:i8 = shl %x, 1:i8
result %z

=== lhs both spellings of a number
%x:i8 = var (range=[200,255))
%y = add %x, 255
%z = add %y, -1
%w = add %z, 127
infer %w
---
%x:i8 = var (range=[200,255))
%y:i8 = add %x, 255:i8
%z:i8 = add %y, -1:i8
%w:i8 = add %z, 127:i8
infer %w
---
%x:i8 = var (range=[-56,-1))
%y:i8 = add %x, -1:i8
%z:i8 = add %y, -1:i8
%w:i8 = add %z, 127:i8
infer %w

=== lhs parts of a pair
%x:i8 = var
%p = uadd.with.overflow %x, 1
%o = extractvalue %p, 1:i64
%n = extractvalue %p, 0
%s = select %o, %n, 128
infer %s
---
%x:i8 = var
%p:i9 = uadd.with.overflow %x, 1:i8
%o:i1 = extractvalue %p, 1:i64
%n:i8 = extractvalue %p, 0
%s:i8 = select %o, %n, 128:i8
infer %s
---
%x:i8 = var
%p:i9 = uadd.with.overflow %x, 1:i8
%o:i1 = extractvalue %p, 1:i32
%n:i8 = extractvalue %p, 0:i32
%s:i8 = select %o, %n, -128:i8
infer %s

=== lhs blocks and conditions have no type
%b = block 2
%x = var
%y = phi %b, %x, 31:i5
pc %y 1
blockpc %b 1 %x 16
infer %y
---
%b = block 2
%x:i5 = var
%y:i5 = phi %b, %x, 31:i5
pc %y 1:i5
blockpc %b 1 %x 16:i5
infer %y
---
%b = block 2
%x:i5 = var
%y:i5 = phi %b, %x, -1:i5
pc %y 1:i5
blockpc %b 1 %x -16:i5
infer %y

=== lhs the widest pair
%x:i65535 = var
%y = ssub.with.overflow %x, 1
%z = extractvalue %y, 1
infer %z
---
%x:i65535 = var
%y = ssub.with.overflow %x, 1:i65535
%z:i1 = extractvalue %y, 1
infer %z
---
%x:i65535 = var
%y = ssub.with.overflow %x, 1:i65535
%z:i1 = extractvalue %y, 1:i32
infer %z

=== lhs one bit, and more bits than numbers have
%x:i1 = var
%y = or %x, 1
%z:i127 = zext %y
%w = add %z, 170141183460469231731687303715884105727
%v:i128 = zext %w
%u = add %v, 170141183460469231731687303715884105727
infer %u
---
%x:i1 = var
%y:i1 = or %x, 1:i1
%z:i127 = zext %y
%w:i127 = add %z, 170141183460469231731687303715884105727:i127
%v:i128 = zext %w
%u:i128 = add %v, 170141183460469231731687303715884105727:i128
infer %u
---
%x:i1 = var
%y:i1 = or %x, -1:i1
%z:i127 = zext %y
%w:i127 = add %z, -1:i127
%v:i128 = zext %w
%u:i128 = add %v, 170141183460469231731687303715884105727:i128
infer %u

=== rep the result and the comparison
%x:i8 = reservedinst
%y = ult %x, 200
infer %y
result 1
---
%x:i8 = reservedinst
%y:i1 = ult %x, 200:i8
infer %y
result 1:i1
---
%x:i8 = reservedinst
%y:i1 = ult %x, -56:i8
infer %y
result -1:i1

=== rep cand
%x:i16 = reservedconst
cand %x 65535
---
%x:i16 = reservedconst
cand %x 65535:i16
---
%x:i16 = reservedconst
cand %x -1:i16

=== rhs a constant
result 5:i3
---
result 5:i3
---
result -3:i3
";

// The text of a right-hand side has no newline at its end.
fn judge_text<T: Item>(rt: &impl Abort, item: &T, want: &str) {
    let text = item.to_text().expect(rt, want);
    let lines = text.strip_suffix("\n").unwrap_or(text.as_str());
    assert_eq!(rt; lines, want);
}

// The copy and the item itself are written alike.
fn judge_form<T: TypedItem + Drop>(rt: &impl Abort, items: &mut [T], typed: &str, completed: &str) {
    let item = items.first_mut().expect(rt, "an item");
    let copy = with_widths(item).expect(rt, typed);
    judge_text(rt, &copy, typed);
    let copy = complete(item).expect(rt, typed);
    judge_text(rt, &copy, completed);
    write_widths(item, Form::Widths).expect(rt, typed);
    judge_text(rt, item, typed);
    write_widths(item, Form::Complete).expect(rt, typed);
    judge_text(rt, item, completed);
}

fn judge(rt: &impl Abort, alloc: Global, kind: &str, source: &str, typed: &str, completed: &str) {
    if kind == "lhs" {
        let mut items = parse_left_hand_sides_str(alloc, source, None).expect(rt, source);
        judge_form(rt, &mut items, typed, completed);
        return;
    }
    if kind == "rhs" {
        let mut items = parse_right_hand_sides_str(alloc, source, None).expect(rt, source);
        judge_form(rt, &mut items, typed, completed);
        return;
    }
    let mut items = parse_replacements_str(alloc, source, None).expect(rt, source);
    judge_form(rt, &mut items, typed, completed);
}

#[test]
fn widths_are_written(rt: HostRuntime) {
    let alloc = rt.alloc();
    let rest = WRITTEN.strip_prefix("\n=== ").expect(&rt, "no case");
    let rest = rest.strip_suffix("\n").expect(&rt, "no newline at the end");
    for lines in rest.split("\n\n=== ") {
        let (head, parts) = lines.split_once('\n').expect(&rt, lines);
        let (kind, _name) = head.split_once(' ').expect(&rt, lines);
        let (source, forms) = parts.split_once("\n---\n").expect(&rt, lines);
        let (typed, completed) = forms.split_once("\n---\n").expect(&rt, lines);
        judge(&rt, alloc, kind, source, typed, completed);
    }
}

// An item without widths stays as it is.
#[test]
fn item_without_widths_stays(rt: HostRuntime) {
    let alloc = rt.alloc();
    let source = "%x = var\n%y:i2 = zext %x\n%z = add %y, 3\ninfer %z";
    let mut items = parse_left_hand_sides_str(alloc, source, None).expect(&rt, source);
    let item = items.first_mut().expect(&rt, source);
    assert!(&rt; write_widths(item, Form::Complete).is_err());
    judge_text(&rt, item, source);
}
