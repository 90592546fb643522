//! Streams that are read on after a parse error.
use crate::checks::{Ran, equal, text};
use crate::faulty::FaultyWriter;
use crate::records::support::{Command, did, run_over, run_to, runs};
use souper_format::watched::Watched;
use souper_ir::ast::{LeftHandSide, Replacement, RightHandSide};
use souper_stream::StreamItem;
use std::alloc::Global;
use std::io::BufReader;
use std::process::Abort;

fn each_text<T: StreamItem + Drop>(rt: &impl Abort, alloc: Global, source: &str, want: Ran<'_>) {
    for capacity in [1, 7, 4096] {
        runs::<T>(rt, alloc, Command::EachGoingOn, (source, capacity), want);
    }
}

// An item whose statement, use or token is wrong, or whose end is missing, is reported, and those around it are written.
const REFUSED: &str = "%0:i32 = var
infer %0

%1:i32 = var
%2:i32 = foo %1
infer %2

; a comment with infer %a
%a:i8 = var
%b:i8 = add %a, $
infer %b

%c = var
infer %c $
%d = var
infer %d
infer %d
%e = var
infer
%f = var
infer %f ; the end";

const KEPT: &str = "%0:i32 = var
infer %0

%d = var
infer %d

%f = var
infer %f

";

const REPORTED: &str = "a.opt:5:10: expected a constant, var, block, phi, or instruction
     |
   5 | %2:i32 = foo %1
     |          ^
a.opt:10:17: unexpected '$'
     |
  10 | %b:i8 = add %a, $
     |                 ^
a.opt:14:10: unexpected '$'
     |
  14 | infer %c $
     |          ^
a.opt:17:7: no value named '%d' in scope
     |
  17 | infer %d
     |       ^
a.opt:19:6: unexpected end of item
     |
  19 | infer
     |      ^
";

#[test]
fn items_around_refused_ones_are_written(rt: HostRuntime) {
    each_text::<LeftHandSide>(&rt, rt.alloc(), REFUSED, (1, KEPT, REPORTED));
}

// Of a line with several items, those before the rejected one are written, and so is the item of the next line.
#[test]
fn items_before_a_refused_one_of_the_line_are_written(rt: HostRuntime) {
    let source = "result 1 result 2 result result\nresult 3\nresult 4";
    let want = "result 1\nresult 2\nresult 3\nresult 4\n";
    let report =
        "a.opt:1:26: expected an integer literal\n     |\n   1 | result 1 result 2 result result\n     |                          ^\n";
    each_text::<RightHandSide>(&rt, rt.alloc(), source, (1, want, report));
}

// Items that share lines, with tokens and an operation that are wrong.
const SHARED: &str = "%x = var infer %x $
%y = var
infer %y %z = foo infer %z
%a = var
infer
%a %b = $
infer %a
%c = var
infer %c
%d = $
(nonZero) infer %d
%e = var
infer %e";

const KEPT_OF_SHARED: &str = "%y = var
infer %y

%a = var
infer %a

%c = var
infer %c

%e = var
infer %e

";

const REPORTED_OF_SHARED: &str = "a.opt:1:19: unexpected '$'
     |
   1 | %x = var infer %x $
     |                   ^
a.opt:3:15: expected a constant, var, block, phi, or instruction
     |
   3 | infer %y %z = foo infer %z
     |               ^
a.opt:6:9: unexpected '$'
     |
   6 | %a %b = $
     |         ^
a.opt:10:6: unexpected '$'
     |
  10 | %d = $
     |      ^
";

// Behind a line with several items, or with the end of one, the item of the next line is read.
#[test]
fn items_of_the_next_lines_are_written(rt: HostRuntime) {
    let want = (1, KEPT_OF_SHARED, REPORTED_OF_SHARED);
    each_text::<LeftHandSide>(&rt, rt.alloc(), SHARED, want);
    let source = "cand 1 $\ninfer 1 result 2\n%x = var infer %x result %x $\ncand 3 4";
    let written = "%x = var\ninfer %x\nresult %x\n\ncand 3 4\n\n";
    let mut reader = BufReader::with_capacity(rt.alloc(), 3, source.as_bytes()).expect(&rt, source);
    let run = run_over::<Replacement, BufReader<&[u8]>>(
        rt.alloc(),
        Command::EachGoingOn,
        &mut reader,
    );
    equal(&rt, (run.status, text(&run.out)), (1, written));
    equal(&rt, text(&run.err).lines().count(), 12);
}

// Text that spells items is read as it is without parse errors, also if a name and what defines it are on lines of their own.
#[test]
fn items_are_those_of_the_text(rt: HostRuntime) {
    let alloc = rt.alloc();
    each_text::<LeftHandSide>(&rt, alloc, "", (0, "", ""));
    each_text::<LeftHandSide>(&rt, alloc, "; nothing\n\n", (0, "", ""));
    let source = "%x\n= var infer\n%x %y = var\n\ninfer %y";
    let want = "%x = var\ninfer %x\n\n%y = var\ninfer %y\n\n";
    each_text::<LeftHandSide>(&rt, alloc, source, (0, want, ""));
    let source = "%x = var infer %x %y\n= var\ninfer %y";
    each_text::<LeftHandSide>(&rt, alloc, source, (0, want, ""));
    let source = "%x = var\ninfer %x\nresult\n1\ncand 1 2";
    let want = "%x = var\ninfer %x\nresult 1\n\ncand 1 2\n\n";
    each_text::<Replacement>(&rt, alloc, source, (0, want, ""));
}

// Items of which the one at this index is rejected.
fn one_refused(rt: &impl Abort, alloc: Global, bad: usize, count: usize) -> String {
    let mut source = String::new(alloc);
    for index in 0..count {
        let item = if index == bad {
            "infer %a\n\n"
        } else {
            "%a = var\ninfer %a\n\n"
        };
        source.push_str(item).expect(rt, item);
    }
    source
}

fn keeps_the_others(rt: &impl Abort, alloc: Global, bad: usize) {
    let source = one_refused(rt, alloc, bad, 5);
    let bytes = source.as_bytes();
    let mut reader = BufReader::with_capacity(alloc, 3, bytes).expect(rt, "memory");
    let run = run_over::<LeftHandSide, BufReader<&[u8]>>(alloc, Command::EachGoingOn, &mut reader);
    let line = bad.saturating_mul(3).saturating_add(1);
    let report = format!(in alloc;
        "a.opt:{line}:7: no value named '%a' in scope\n     |\n{line:>4} | infer %a\n     |       ^\n"
    ).expect(rt, "memory");
    let found = (run.status, run.out.len(), text(&run.err));
    equal(rt, (bad, found), (bad, (1, 4 * 19, report.as_str())));
}

#[test]
fn refused_item_at_each_index_loses_no_other(rt: HostRuntime) {
    for bad in 0..5 {
        keeps_the_others(&rt, rt.alloc(), bad);
    }
}

#[test]
fn first_items_are_written_around_a_refused_one(rt: HostRuntime) {
    let source = "%a = var\ninfer %a\ninfer %b\n%a = var\ninfer %a\n%c = var\ninfer %c\n";
    let bytes = source.as_bytes();
    let mut reader = BufReader::with_capacity(rt.alloc(), 3, bytes).expect(&rt, source);
    let run = run_over::<LeftHandSide, BufReader<&[u8]>>(
        rt.alloc(),
        Command::UniqGoingOn,
        &mut reader,
    );
    let want = "%a = var\ninfer %a\n\n%c = var\ninfer %c\n\n";
    did(
        &rt,
        run,
        (1, want, "a.opt:3:7: no value named '%b' in scope\n"),
    );
}

// The parse errors come before the line of the bytes that are not UTF-8.
#[test]
fn fault_is_reported_after_the_refusals(rt: HostRuntime) {
    let source = b"%a = var\ninfer %a\ninfer %b\n%c = var\ninfer %c\n\xff";
    let bytes = source.as_slice();
    let mut reader = BufReader::with_capacity(rt.alloc(), 3, bytes).expect(&rt, "memory");
    let run = run_over::<LeftHandSide, BufReader<&[u8]>>(
        rt.alloc(),
        Command::EachGoingOn,
        &mut reader,
    );
    let lines = text(&run.err);
    let found = (
        run.status,
        text(&run.out),
        lines.starts_with("a.opt:3:7: no value named '%b' in scope\n"),
        lines.ends_with("\na.opt:6: not UTF-8 at byte 45\n"),
    );
    equal(&rt, found, (2, "%a = var\ninfer %a\n\n", true, true));
}

// The status of a run that is rejected and whose report fails after this number of calls, and whether it failed.
fn failed_report(rt: &impl Abort, alloc: Global, after: usize) -> (u8, bool) {
    let mut reader = BufReader::new(alloc, b"infer %x\n".as_slice()).expect(rt, "memory");
    let mut written = Vec::new(alloc);
    let mut out = Watched::new(&mut written);
    let mut err = Watched::new(FaultyWriter::new(5, after));
    let status = run_to::<LeftHandSide, BufReader<&[u8]>, &mut Vec<u8>, FaultyWriter>(
        alloc,
        Command::EachGoingOn,
        &mut reader,
        &mut out,
        &mut err,
    );
    (status, err.failed())
}

#[test]
fn failed_report_leaves_the_status(rt: HostRuntime) {
    for after in 0..4 {
        let found = failed_report(&rt, rt.alloc(), after);
        equal(&rt, (after, found), (after, (1, true)));
    }
}
