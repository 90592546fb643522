//! What a record has.
use crate::checks::equal;
use crate::records::support::{Command, runs};
use souper_ir::ast::{LeftHandSide, Replacement, RightHandSide};
use souper_records::layout::{Delimiter, Layout, PLAIN};
use souper_records::records::key_of;
use std::alloc::Global;
use std::process::Abort;

// The records of left-hand sides are this text.
fn has_records(rt: &impl Abort, alloc: Global, layout: Layout, source: &str, text: &str) {
    runs::<LeftHandSide>(rt, alloc, Command::Each(layout), (source, 9), (0, text, ""));
}

#[test]
fn record_is_the_text_and_a_newline(rt: HostRuntime) {
    let alloc = rt.alloc();
    let text = "%x = var\ninfer %x\n\n";
    has_records(&rt, alloc, PLAIN, "%x = var infer %x", text);
    // The text of a right-hand side has no newline at its end.
    let source = "result 1:i8 result 2:i8";
    let want = (0, "result 1:i8\nresult 2:i8\n", "");
    runs::<RightHandSide>(&rt, alloc, Command::Each(PLAIN), (source, 9), want);
    let source = "%x = var cand %x 1 ; one";
    let want = (0, "%x = var\ncand %x 1\n\n", "");
    runs::<Replacement>(&rt, alloc, Command::Each(PLAIN), (source, 9), want);
    has_records(&rt, alloc, PLAIN, " ; none\n", "");
}

#[test]
fn record_ends_with_nul(rt: HostRuntime) {
    let layout = Layout {
        delimiter: Delimiter::Nul,
        key: false,
        rename: false,
    };
    let source = "%x = var\ninfer %x\n%y = var\ninfer %y";
    let text = "%x = var\ninfer %x\n\0%y = var\ninfer %y\n\0";
    has_records(&rt, rt.alloc(), layout, source, text);
    let want = (0, "result 1:i8\0", "");
    runs::<RightHandSide>(
        &rt,
        rt.alloc(),
        Command::Each(layout),
        ("result 1:i8", 9),
        want,
    );
}

// The text has this key.
fn has_key(rt: &impl Abort, alloc: Global, text: &str, key: &str) {
    let found = key_of(alloc, text).expect(rt, text);
    equal(rt, found.as_str(), key);
}

#[test]
fn key_is_that_of_the_text(rt: HostRuntime) {
    // By `printf '%%x = var\ninfer %%x\n' | sha256sum`.
    let key = "45c906728fdf092eaeca38f1b1a007db5a54e1210f944599fd029b24363dca1d";
    let text = "%x = var\ninfer %x\n";
    has_key(&rt, rt.alloc(), text, key);
    let layout = Layout {
        delimiter: Delimiter::Newline,
        key: true,
        rename: false,
    };
    let record = format!(in rt.alloc(); "; {key}\n{text}\n").expect(&rt, key);
    let record = record.as_str();
    has_records(&rt, rt.alloc(), layout, "%x = var infer %x", record);
    // A record with its key is still an item.
    has_records(&rt, rt.alloc(), layout, record, record);
}

#[test]
fn names_are_those_of_the_printed_order(rt: HostRuntime) {
    let layout = Layout {
        delimiter: Delimiter::Newline,
        key: false,
        rename: true,
    };
    let renamed = "%0 = var\n%1 = var\n%2 = add %0, %1\ninfer %2\n\n";
    let source = "%x = var\n%y = var\n%z = add %x, %y\ninfer %z\n";
    has_records(&rt, rt.alloc(), layout, source, renamed);
    // In another order, with a statement that nothing needs.
    let source = "%1 = var\n%2 = var\n%0 = var\n%a = add %0, %1\ninfer %a\n";
    has_records(&rt, rt.alloc(), layout, source, renamed);
    has_records(&rt, rt.alloc(), layout, renamed, renamed);
}
