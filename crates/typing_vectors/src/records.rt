//! Records of items with their widths, and what is said of items without.
use crate::support::{Run, distinct, records};
use souper_typed::Form;
use std::process::Abort;

const MIXED: &str = "\
%x:i8 = var
%y = add %x, 255
infer %y
%x:i32 = var
%y:i8 = add %x, 1
infer %y

%x = var
infer %x
%a:i8 = var  %b = add %a, -1
infer %b
";

const FIRST: &str = "%x:i8 = var\n%y:i8 = add %x, 255:i8\ninfer %y\n\n";

const LAST: &str = "%a:i8 = var\n%b:i8 = add %a, -1:i8\ninfer %b\n\n";

const CONFLICT: &str = "\
a.lhs:4: no widths: i32 and i8 clash
statement 2: %y:i8 = add %x, 1
";

const MISSING: &str = "\
a.lhs:8: no widths: a width is missing
statement 1: %x = var
hint: write %x:i32
";

fn is_said(rt: &impl Abort, run: &Run, out: &[&str], err: &[&str]) {
    let (mut written, mut said) = (run.out(), run.err());
    for text in out {
        written = written.strip_prefix(*text).expect(rt, run.out());
    }
    for text in err {
        said = said.strip_prefix(*text).expect(rt, run.err());
    }
    assert_eq!(rt; written, "");
    assert_eq!(rt; said, "");
}

#[test]
fn reading_ends_with_the_first_item_without_widths(rt: HostRuntime) {
    let run = records(rt.alloc(), Form::Widths, false, MIXED);
    assert_eq!(&rt; run.status, 1);
    is_said(&rt, &run, &[FIRST], &[CONFLICT]);
}

#[test]
fn items_without_widths_are_passed_over(rt: HostRuntime) {
    let run = records(rt.alloc(), Form::Widths, true, MIXED);
    assert_eq!(&rt; run.status, 1);
    is_said(&rt, &run, &[FIRST, LAST], &[CONFLICT, MISSING]);
}

#[test]
fn items_with_widths_say_nothing(rt: HostRuntime) {
    let source = "%x:i8 = var %y = add %x, 255 infer %y";
    let run = records(rt.alloc(), Form::Complete, false, source);
    assert_eq!(&rt; run.status, 0);
    let want = "%x:i8 = var\n%y:i8 = add %x, -1:i8\ninfer %y\n\n";
    is_said(&rt, &run, &[want], &[]);
}

// The error of a rejected part comes before those of its items.
#[test]
fn parse_errors_are_reported_too(rt: HostRuntime) {
    let source = "%x = var infer %x infer %y\n%x:i1 = var\ninfer %x\n";
    let run = records(rt.alloc(), Form::Widths, true, source);
    assert_eq!(&rt; run.status, 1);
    let error =
        "a.lhs:1:25: no value named '%y' in scope\n     |\n   1 | %x = var infer %x infer %y\n     |                         ^\n";
    let missing =
        "a.lhs:1: no widths: a width is missing\nstatement 1: %x = var\nhint: write %x:i32\n";
    is_said(&rt, &run, &["%x:i1 = var\ninfer %x\n\n"], &[error, missing]);
}

#[test]
fn distinct_items_are_those_of_one_form(rt: HostRuntime) {
    let source =
        "%x:i8 = var %y = add %x, 255 infer %y\n%x:i8 = var %y:i8 = add %x, -1:i8 infer %y\n%x = var infer %x\n";
    let run = distinct(rt.alloc(), Form::Complete, source);
    assert_eq!(&rt; run.status, 1);
    let want = "%x:i8 = var\n%y:i8 = add %x, -1:i8\ninfer %y\n\n";
    let missing =
        "a.lhs:3: no widths: a width is missing\nstatement 1: %x = var\nhint: write %x:i32\n";
    is_said(&rt, &run, &[want], &[missing, missing]);
}
