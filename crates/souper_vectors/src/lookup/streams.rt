//! What is written for a stream of left-hand sides.

use souper_find::run::fill_run;
use souper_find::search::{Choice, Search};
use souper_format::watched::Watched;
use souper_ir::ast::LeftHandSide;
use souper_lookup::store::Store;
use souper_records::layout::{Delimiter, Layout, PLAIN};
use souper_records::options::ReadOptions;
use souper_records::output::Output;
use souper_records::rows::rows_run;
use std::alloc::Global;
use std::process::Abort;

const STORE: &str = "\
%x = var
%y = mul %x, 2
%z = shl %x, 1
cand %y %z
%x = var
%y = mul %x, 2
infer %y
%z = add %x, %x
result %z
%x = var
%y = sub %x, %x
cand %y 0
";

const QUERIES: &str = "\
%a = var
%b = mul %a, 2
infer %b
%a = var
%b = udiv %a, 2
infer %b
%c = var
%d = sub %c, %c
infer %d
";

// The status of adding the text to the store, and whether something was reported.
fn fill(alloc: Global, store: &mut Store, text: &str) -> (u8, bool) {
    let mut err = Vec::new(alloc);
    let mut reader = text.as_bytes();
    let mut watched = Watched::new(&mut err);
    let status = fill_run::<&[u8], &mut Vec<u8>>(alloc, store, &mut reader, "store", &mut watched);
    (status, !err.is_empty())
}

// What is written for the left-hand sides is the text, and the status is this.
fn finds(rt: &impl Abort, alloc: Global, search: Search<'_>, queries: &str, want: (u8, &str)) {
    let mut out = Vec::new(alloc);
    let mut err = Vec::new(alloc);
    let options = ReadOptions {
        name: "queries",
        recover: true,
        line_buffered: false,
        hints: None,
    };
    let mut reader = queries.as_bytes();
    let status = rows_run::<
        LeftHandSide,
        Vec<String>,
        Search<'_>,
        &[u8],
        &mut Vec<u8>,
        &mut Vec<u8>,
    >(
        alloc,
        search,
        options,
        &mut reader,
        &mut Watched::new(&mut out),
        &mut Watched::new(&mut err),
    );
    let text = str::from_utf8(&out).expect(rt, "UTF-8");
    assert_eq!(rt; (status, text), want);
}

#[test]
fn answers_are_written_in_order(rt: HostRuntime) {
    let alloc = rt.alloc();
    let mut store = Store::new(alloc);
    assert_eq!(rt; fill(alloc, &mut store, STORE), (0, false));
    let search = Search {
        store: &store,
        choice: Choice::All,
        output: Output::Records(PLAIN),
    };
    let all = "\
%a = var
%b = mul %a, 2
infer %b
%2 = shl %a, 1
result %2

%a = var
%b = mul %a, 2
infer %b
%2 = add %a, %a
result %2

%c = var
%d = sub %c, %c
infer %d
result 0

";
    finds(&rt, alloc, search, QUERIES, (0, all));
}

#[test]
fn unanswered_are_written_instead(rt: HostRuntime) {
    let alloc = rt.alloc();
    let mut store = Store::new(alloc);
    assert_eq!(rt; fill(alloc, &mut store, STORE), (0, false));
    let layout = Layout {
        delimiter: Delimiter::Nul,
        key: false,
        rename: true,
    };
    let search = Search {
        store: &store,
        choice: Choice::Unanswered,
        output: Output::Records(layout),
    };
    let left = "%0 = var\n%1 = udiv %0, 2\ninfer %1\n\0";
    finds(&rt, alloc, search, QUERIES, (0, left));
}

#[test]
fn objects_have_the_place_of_the_left_hand_side(rt: HostRuntime) {
    let alloc = rt.alloc();
    let mut store = Store::new(alloc);
    assert_eq!(rt; fill(alloc, &mut store, STORE), (0, false));
    let search = Search {
        store: &store,
        choice: Choice::First,
        output: Output::Objects { rename: false },
    };
    let lines =
        r#"{"file":"queries","key":"5d4c6e8018035e69e7b2e0837b36be9b84af859bf8996ad88b86c98240297e3d","line":1,"offset":0,"text":"%a = var\n%b = mul %a, 2\ninfer %b\n%2 = shl %a, 1\nresult %2\n"}
{"file":"queries","key":"4ff868ace3ff58a3dea598ed2cc805da0f221bc353555948083dfd7aa48a51c6","line":7,"offset":67,"text":"%c = var\n%d = sub %c, %c\ninfer %d\nresult 0\n"}
"#;
    finds(&rt, alloc, search, QUERIES, (0, lines));
}

#[test]
fn refused_store_has_a_hint_with_its_lines(rt: HostRuntime) {
    let alloc = rt.alloc();
    let mut store = Store::new(alloc);
    let mut err = Vec::new(alloc);
    let mut reader = "%x = var\ncand %x 1\n\n%y = var\n%y = var\ncand %y 1\n".as_bytes();
    let mut watched = Watched::new(&mut err);
    let status = fill_run::<&[u8], &mut Vec<u8>>(
        alloc,
        &mut store,
        &mut reader,
        "store",
        &mut watched,
    );
    let want = "\
store:5:1: cannot redefine '%y'
     |
   5 | %y = var
     | ^
hint: '%y' is defined on line 4; if line 5 begins another item, the 'infer' or 'cand' line is missing before it
";
    let text = str::from_utf8(&err).expect(&rt, "UTF-8");
    assert_eq!(rt; (status, text), (1, want));
}

#[test]
fn refused_store_is_reported(rt: HostRuntime) {
    let alloc = rt.alloc();
    let mut store = Store::new(alloc);
    assert_eq!(rt; fill(alloc, &mut store, "%x = var\ninfer %x\n"), (1, true));
}
