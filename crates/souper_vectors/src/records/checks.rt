//! Whether streams are canonical.
use crate::checks::equal;
use crate::records::streams::good_ones;
use crate::records::support::headed;
use souper_format::watched::Watched;
use souper_ir::ast::{LeftHandSide, RightHandSide};
use souper_records::check::check_run;
use souper_stream::StreamItem;
use std::alloc::Global;
use std::io::BufReader;
use std::process::Abort;

// A check of the text has this status, and reports lines with this head.
fn is_told<T: StreamItem + Drop>(rt: &impl Abort, alloc: Global, source: &[u8], want: (u8, &str)) {
    let mut reader = BufReader::new(alloc, source).expect(rt, "memory");
    let mut reported = Vec::new(alloc);
    let mut err = Watched::new(&mut reported);
    let status = check_run::<T, BufReader<&[u8]>, &mut Vec<u8>>(
        alloc,
        &mut reader,
        "a.opt",
        None,
        &mut err,
    );
    let found = (status, headed(&reported, want.1));
    equal(rt, (source, found), (source, want));
}

fn is_lhs_told(rt: &impl Abort, alloc: Global, source: &[u8], want: (u8, &str)) {
    is_told::<LeftHandSide>(rt, alloc, source, want);
}

#[test]
fn formatted_texts_are_canonical(rt: HostRuntime) {
    is_lhs_told(&rt, rt.alloc(), b"", (0, ""));
    let source = b"%x = var\ninfer %x\n\n%y = var\ninfer %y\n\n";
    is_lhs_told(&rt, rt.alloc(), source, (0, ""));
    let source = b"result 1:i8\nresult 2:i8\n";
    is_told::<RightHandSide>(&rt, rt.alloc(), source, (0, ""));
}

// The texts are not canonical, and first differ on these lines.
static OTHERS: [(&str, &str); 8] = [
    ("\n", "a.opt:1: not canonical\n"),
    (" %x = var\ninfer %x\n\n", "a.opt:1: not canonical\n"),
    ("%x = var ; input\ninfer %x\n\n", "a.opt:1: not canonical\n"),
    (
        "%x = var\n%y = var\ninfer %x\n\n",
        "a.opt:2: not canonical\n",
    ),
    ("%x = var\ninfer %x", "a.opt:2: not canonical\n"),
    ("%x = var\ninfer %x\n", "a.opt:3: not canonical\n"),
    ("%x = var\ninfer %x\n\n\n", "a.opt:4: not canonical\n"),
    (
        "%x = var\ninfer %x\n\n%y = var\ninfer %y ; end\n\n",
        "a.opt:5: not canonical\n",
    ),
];

#[test]
fn first_line_that_differs_is_told(rt: HostRuntime) {
    for (source, line) in OTHERS {
        is_lhs_told(&rt, rt.alloc(), source.as_bytes(), (1, line));
    }
    let want = (1, "a.opt:2: not canonical\n");
    is_told::<RightHandSide>(&rt, rt.alloc(), b"result 1:i8\n\n", want);
    let want = (1, "a.opt:1: not canonical\n");
    is_told::<RightHandSide>(&rt, rt.alloc(), b"result 1:i8", want);
}

// Texts of several parts, of which this one has 90 KB.
const MANY: usize = 5000;

// The status and the report of a check of the items between the two texts.
fn is_told_between(
    rt: &impl Abort,
    alloc: Global,
    (before, after): (&str, &str),
    want: (u8, &str),
) {
    let items = good_ones(rt, alloc, MANY);
    let source = format!(in alloc; "{before}{items}{after}").expect(rt, before);
    is_lhs_told(rt, alloc, source.as_bytes(), want);
}

#[test]
fn first_difference_of_all_parts_is_told(rt: HostRuntime) {
    is_told_between(&rt, rt.alloc(), ("", ""), (0, ""));
    let want = (1, "a.opt:15001: not canonical\n");
    is_told_between(&rt, rt.alloc(), ("", "%b = var ; b\ninfer %b\n"), want);
    is_told_between(&rt, rt.alloc(), ("", "; b\n"), want);
    is_told_between(&rt, rt.alloc(), ("", "\n"), want);
    let want = (1, "a.opt:2: not canonical\n");
    is_told_between(&rt, rt.alloc(), ("%b = var\ninfer %b;\n\n", "; b\n"), want);
}

// The parse error is reported in place of the difference.
#[test]
fn refusal_after_a_difference_is_told(rt: HostRuntime) {
    let want = (1, "a.opt:15002:7: no value named '%y' in scope\n");
    is_told_between(&rt, rt.alloc(), ("; b\n", "infer %y\n"), want);
}

#[test]
fn refused_texts_are_told(rt: HostRuntime) {
    is_lhs_told(&rt, rt.alloc(), b"%x = var\ninfer %y\n", (1, "a.opt:2:7: "));
    is_lhs_told(
        &rt,
        rt.alloc(),
        b"\xff",
        (2, "a.opt:1: not UTF-8 at byte 0\n"),
    );
}
